ghost use Rattle.std.specs.Prelude.{◌≡◌, ◌<◌};

use gp_base::{Key, KeyKind, Level, Mode, Src, Steps};
use gp_commission::Offer;
use gp_disk::MemoryDisk;
use gp_sink::{Cause, Config, Sink, SinkFault, Verdict};
use gp_store::{Refused, format as make_ready};
use std::alloc::{AllocError, Global};
use std::marker::Brand;
use std::process::Abort;
use std::sync::ledger::{Blank, Ledger};
use std::test::Fail;

mod calls;
mod messages;

const SIZE: u64 = 204_800;

const SOURCE: Src = Src(0x8765_4321);

const K: Key = Key([
    0xC0, 0xC1, 0xC2, 0xC3, 0xC4, 0xC5, 0xC6, 0xC7, 0xC8, 0xC9, 0xCA, 0xCB, 0xCC, 0xCD, 0xCE, 0xCF,
]);

const Q: Key = Key([
    0xD0, 0xD1, 0xD2, 0xD3, 0xD4, 0xD5, 0xD6, 0xD7, 0xD8, 0xD9, 0xDA, 0xDB, 0xDC, 0xDD, 0xDE, 0xDF,
]);

const CONFIG: Config = Config {
    address: 1,
    ieee: 1,
    mode: Mode::Derived,
    group: 0,
    channel: 11,
    link: Q,
    shared: Q,
};

// What is done with a sink.
#[derive(Clone, Copy, Debug)]
enum Action {
    // The device 87654321 is paired under a key, with this counter.
    Pair(Key, u32),
    // A frame of that device is heard, without its first 7 octets: the control octets 8C 30, the SrcID, and these.
    Hear(&'static str),
    // The power is switched off and on.
    Restart,
}

// Frames of the device with these counters: command 20 under K.
const TWO: &str = "0200000020AD69A978";

const FOUR: &str = "0400000020661D1918";

const FIVE: &str = "0500000020E472D732";

const SIX: &str = "0600000020515ECF22";

const HUNDRED_AND_ONE: &str = "6500000020AEF9F50E";

const GREATEST: &str = "FFFFFFFF2088C6803C";

// Counter 2 with one bit of the MIC changed; counter 1 and command 21 under Q; Decommissioning; counter 3 behind it.
const FORGED: &str = "0200000020AC69A978";

const OTHER: &str = "0100000021919F4CEC";

const LEAVES: &str = "02000000E1C6C6C4E8";

const THREE: &str = "0300000020F2B8F999";

fn offer(key: Key, counter: u32) -> Offer {
    Offer {
        src: SOURCE,
        key,
        kind: KeyKind::OutOfBox,
        level: Level::Two,
        device: 2,
        counter,
    }
}

// The sink of a disk that has a store.
fn started(rt: &impl Abort, alloc: Global, disk: MemoryDisk) -> Sink<MemoryDisk> {
    match Sink::start(alloc, CONFIG, disk) {
        Ok(sink) => sink,
        Err(refused) => {
            let Refused { fault, disk: _ } = refused;
            panic!(rt; "{fault:?}")
        }
    }
}

// A sink that has no rows yet.
fn fresh(rt: &impl Abort, alloc: Global) -> Result<Sink<MemoryDisk>, Fail> {
    let mut disk = MemoryDisk::new(alloc, SIZE).ok().ok_or("no memory")?;
    assert_eq!(rt; make_ready(&mut disk), Ok(()));
    Ok(started(rt, alloc, disk))
}

// A verdict as a line of a report has it, behind the number of the line and the name of the node.
fn told(alloc: Global, verdict: &Verdict) -> Result<String, AllocError> {
    match verdict {
        Verdict::Acted {
            row,
            source,
            counter,
            command,
            acts,
        } => {
            let count = acts.as_slice().len();
            format!(in alloc;
                "acted {row} {:08X} {counter} {command:02X} {count}",
                source.0
            )
        }
        Verdict::Paired {
            row,
            source,
            floor,
            ..
        } => format!(in alloc; "paired {row} {:08X} {floor}", source.0),
        Verdict::Unpaired {
            row,
            source,
            counter,
            ..
        } => format!(in alloc; "unpaired {row} {:08X} {counter}", source.0),
        Verdict::Refused(reason) => format!(in alloc; "refused {reason:?}"),
        Verdict::Full => format!(in alloc; "refused TableFull"),
        Verdict::Dropped(Cause::Stale { floor }) => format!(in alloc; "drop Stale {floor}"),
        Verdict::Dropped(cause) => format!(in alloc; "drop {cause:?}"),
    }
}

// A frame of the device, of 22 octets.
fn frame(alloc: Global, rest: &str) -> Result<Vec<u8>, Fail> {
    let digits = format!(in alloc; "010800FFFFFFFF8C3021436587{rest}")?;
    Ok(hex::decode(alloc, &digits)?)
}

// What a sink answers to octets.
fn hear<L: Ledger>(
    sink: &mut Sink<MemoryDisk>,
    octets: &[u8],
    blank: Blank,
) -> Result<Verdict, SinkFault>
    requires name { blank.name ≡ L.name }
    requires parts { blank.parts ≡ L.parts }
    requires some { 0 < L.parts }
{
    let mut steps = Steps::<L>::new(blank);
    sink.hear(octets, &mut steps)
}

// What a sink answers to a frame of the device, as a line.
fn heard(
    rt: &impl Abort,
    alloc: Global,
    sink: &mut Sink<MemoryDisk>,
    rest: &str,
) -> Result<String, Fail> {
    let octets = frame(alloc, rest)?;
    match hear::<Brand>(sink, &octets, Blank::new(1)) {
        Ok(verdict) => Ok(told(alloc, &verdict)?),
        Err(fault) => panic!(rt; "{fault:?}"),
    }
}

// What a sink answers to an offer, as a line.
fn paired(
    rt: &impl Abort,
    alloc: Global,
    sink: &mut Sink<MemoryDisk>,
    offer: &Offer,
) -> Result<String, Fail> {
    match sink.pair(offer) {
        Ok(verdict) => Ok(told(alloc, &verdict)?),
        Err(fault) => panic!(rt; "{fault:?}"),
    }
}

// The power is switched off and on.
fn restarted(rt: &impl Abort, alloc: Global, sink: Sink<MemoryDisk>) -> Sink<MemoryDisk> {
    let mut disk = sink.into_disk();
    disk.crash(0);
    started(rt, alloc, disk)
}

// Each action in turn, with the line that the sink answers.
fn play(rt: &impl Abort, alloc: Global, lines: &[(Action, &str)]) -> Result<(), Fail> {
    let mut sink = fresh(rt, alloc)?;
    for (action, line) in lines {
        match action {
            Action::Pair(key, counter) => {
                let told = paired(rt, alloc, &mut sink, &offer(*key, *counter))?;
                assert_eq!(rt; told.as_str(), *line);
            }
            Action::Hear(rest) => {
                let told = heard(rt, alloc, &mut sink, rest)?;
                assert_eq!(rt; told.as_str(), *line);
            }
            Action::Restart => sink = restarted(rt, alloc, sink),
        }
    }
    Ok(())
}

// A frame is acted on once, also behind a forged one, and after the power was off.
#[test]
fn acts_once(rt: HostRuntime) -> Result<(), Fail> {
    play(
        &rt,
        rt.alloc(),
        &[
            (Action::Pair(K, 1), "paired 0 87654321 1"),
            (Action::Hear(FORGED), "drop BadTag"),
            (Action::Hear(TWO), "acted 0 87654321 2 20 1"),
            (Action::Hear(TWO), "drop Stale 2"),
            (Action::Restart, ""),
            (Action::Hear(TWO), "drop Stale 2"),
            (Action::Hear(FOUR), "acted 0 87654321 4 20 1"),
        ],
    )
}

// Frames out of order: a counter below the floor is stale.
#[test]
fn keeps_the_order(rt: HostRuntime) -> Result<(), Fail> {
    play(
        &rt,
        rt.alloc(),
        &[
            (Action::Pair(K, 3), "paired 0 87654321 3"),
            (Action::Hear(FIVE), "acted 0 87654321 5 20 1"),
            (Action::Hear(FOUR), "drop Stale 5"),
            (Action::Hear(SIX), "acted 0 87654321 6 20 1"),
        ],
    )
}

// A key that comes back has its floor still.
#[test]
fn keeps_the_floor_of_a_key(rt: HostRuntime) -> Result<(), Fail> {
    play(
        &rt,
        rt.alloc(),
        &[
            (Action::Pair(K, 100), "paired 0 87654321 100"),
            (Action::Hear(HUNDRED_AND_ONE), "acted 0 87654321 101 20 1"),
            (Action::Pair(Q, 0), "paired 1 87654321 0"),
            (Action::Hear(OTHER), "acted 1 87654321 1 21 1"),
            (Action::Pair(K, 50), "paired 0 87654321 101"),
            (Action::Hear(HUNDRED_AND_ONE), "drop Stale 101"),
        ],
    )
}

// The greatest counter is the last one, and no device is paired with it.
#[test]
fn ends_at_the_greatest_counter(rt: HostRuntime) -> Result<(), Fail> {
    play(
        &rt,
        rt.alloc(),
        &[
            (
                Action::Pair(K, 4_294_967_294),
                "paired 0 87654321 4294967294",
            ),
            (Action::Hear(GREATEST), "acted 0 87654321 4294967295 20 1"),
            (Action::Hear(GREATEST), "drop Stale 4294967295"),
            (Action::Pair(K, 4_294_967_295), "refused CounterEnd"),
        ],
    )
}

// Decommissioning unpairs, for good also after the power was off, until the device is paired again.
#[test]
fn unpairs(rt: HostRuntime) -> Result<(), Fail> {
    play(
        &rt,
        rt.alloc(),
        &[
            (Action::Pair(K, 1), "paired 0 87654321 1"),
            (Action::Hear(LEAVES), "unpaired 0 87654321 2"),
            (Action::Hear(THREE), "drop Unknown"),
            (Action::Restart, ""),
            (Action::Hear(THREE), "drop Unknown"),
            (Action::Pair(K, 1), "paired 0 87654321 2"),
            (Action::Hear(THREE), "acted 0 87654321 3 20 1"),
        ],
    )
}
