// The other calls of a sink, each once.
use super::messages::digits;
use super::{CONFIG, K, SIZE, SOURCE, TWO, fresh, heard, offer, started};
use gp_base::Src;
use gp_commission::Offer;
use gp_disk::MemoryDisk;
use gp_sink::{Sink, SinkFault, Verdict};
use gp_store::{Refused, StoreFault, format as make_ready};
use gp_translate::{Rule, RuleReason, Rules, Target};
use std::test::Fail;

// A fault of the disk halts the sink, until the power was off.
#[test]
fn halts_after_a_fault(rt: HostRuntime) -> Result<(), Fail> {
    let mut sink = fresh(&rt, rt.alloc())?;
    assert!(rt; sink.pair(&offer(K, 1)).is_ok());
    assert_eq!(rt; sink.generation(), 1);
    sink.arm_fault(1, 0);
    assert_eq!(rt; sink.pair(&offer(K, 2)), Err(SinkFault::DiskFault));
    assert!(rt; sink.is_halted() && sink.undecided().is_some());
    assert_eq!(rt; sink.pair(&offer(K, 2)), Err(SinkFault::Halted));
    assert_eq!(rt; sink.announce(SOURCE), Err(SinkFault::Halted));
    let mut disk = sink.into_disk();
    disk.crash(0);
    let sink = started(&rt, rt.alloc(), disk);
    assert!(rt; !sink.is_halted() && sink.undecided().is_none());
    assert_eq!(rt; sink.rows().count(), 1);
    Ok(())
}

// A device is announced and its group is the sink's, until it is unpaired.
#[test]
fn announces(rt: HostRuntime) -> Result<(), Fail> {
    let mut sink = fresh(&rt, rt.alloc())?;
    assert_eq!(rt; sink.announce(SOURCE), Ok(None));
    assert!(rt; sink.pair(&offer(K, 1)).is_ok());
    match sink.announce(SOURCE) {
        Ok(Some(message)) => assert_eq!(rt;
            digits(&rt, rt.alloc(), message)?.as_str(),
            "19000128E4002143658721430201000000C0C1C2C3C4C5C6C7C8C9CACBCCCDCECF"
        ),
        other => panic!(rt; "{other:?}"),
    }
    assert!(rt; sink.in_group(0x4321) && !sink.in_group(0x4322));
    Ok(())
}

// A rule for every device and one that isn't taken.
#[test]
fn takes_rules(rt: HostRuntime) -> Result<(), Fail> {
    let mut disk = MemoryDisk::new(rt.alloc(), SIZE).ok().ok_or("no memory")?;
    assert_eq!(rt; make_ready(&mut disk), Ok(()));
    let Ok(mut sink) = Sink::start_with(rt.alloc(), CONFIG, Rules::standard(), disk) else {
        return Err("not started".into());
    };
    assert_eq!(rt; sink.add_rule(rule(0x20)), Ok(()));
    assert_eq!(rt; sink.add_rule(rule(0xE0)), Err(RuleReason::Form));
    assert!(rt; sink.pair(&offer(K, 1)).is_ok());
    assert_eq!(rt;
        heard(&rt, rt.alloc(), &mut sink, TWO)?.as_str(),
        "acted 0 87654321 2 20 2"
    );
    Ok(())
}

// A rule that copies the payload of a command.
fn rule(command: u8) -> Rule {
    Rule {
        source: None,
        command,
        endpoint: 2,
        target: Target::Copy { cluster: 6, zcl: 2 },
    }
}

// 1,024 rows are all; a pair that is there is paired again.
#[test]
fn is_full_at_1024_rows(rt: HostRuntime) -> Result<(), Fail> {
    let mut sink = fresh(&rt, rt.alloc())?;
    for number in 1..1025u32 {
        match sink.pair(&numbered(number)) {
            Ok(Verdict::Paired { .. }) => {}
            other => panic!(rt; "{number}: {other:?}"),
        }
    }
    assert_eq!(rt; sink.pair(&numbered(1025)), Ok(Verdict::Full));
    match sink.pair(&numbered(1)) {
        Ok(Verdict::Paired { row, .. }) => assert_eq!(rt; row, 0),
        other => panic!(rt; "{other:?}"),
    }
    Ok(())
}

// The offer of another device.
fn numbered(number: u32) -> Offer {
    Offer {
        src: Src(number),
        ..offer(K, 1)
    }
}

// Zeros are no store, and the disk comes back.
#[test]
fn refuses_zeros(rt: HostRuntime) -> Result<(), Fail> {
    let disk = MemoryDisk::new(rt.alloc(), SIZE).ok().ok_or("no memory")?;
    match Sink::start(rt.alloc(), CONFIG, disk) {
        Ok(_) => Err("started".into()),
        Err(refused) => {
            let Refused { fault, disk: _ } = refused;
            assert_eq!(rt; fault, StoreFault::NotFormatted);
            Ok(())
        }
    }
}
