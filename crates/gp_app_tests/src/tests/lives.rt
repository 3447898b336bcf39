//! Lives of one sink over a disk in memory.

use super::formatting::formatted;
use gp_app::{DiskReason, Status, run};
use gp_base::{MemoryOut, MemorySource, Word};
use gp_disk::MemoryDisk;
use std::test::Fail;

const CONFIG: &str =
    "0 config 0001 0000000000000001 derived 11 - D0D1D2D3D4D5D6D7D8D9DADBDCDDDEDF\n";

const PAIR: &str = "1 pair 87654321 C0C1C2C3C4C5C6C7C8C9CACBCCCDCECF 4 2 02 1\n";

const HEAR: &str = "2 hear 010800FFFFFFFF8C30214365870200000020AD69A978\n";

// What is reported of a pairing in line 2, of the frame in line 3, and of the same one in line 4.
const PAIRED: &str =
    "2 sink paired 0 87654321 1\n2 sink put 0 all 19000128E4002143658721430201000000C0C1C2C3C4C5C6C7C8C9CACBCCCDCECF\n3 sink acted 0 87654321 2 20 1\n3 sink zcl 01 0006 0 00 -\n4 sink drop Stale 2\n";

// What the next life reports of its rows in line 2, and of the frame in line 3.
const AGAIN: &str = "2 sink rows 1\n2 sink row 0 87654321 4 2 1 4321 02 1 2\n3 sink drop Stale 2\n";

// A life over a disk, which is handed back.
fn life(
    rt: &HostRuntime,
    disk: MemoryDisk,
    input: &str,
) -> Result<(Status, Vec<u8>, MemoryDisk), Fail> {
    let words = vec![in rt.alloc(); Word::of(rt.alloc(), "sink").ok().ok_or("memory")?]?;
    let mut source = MemorySource::of(rt.alloc(), input.as_bytes(), 4096, &[])
        .ok()
        .ok_or("memory")?;
    let mut out = MemoryOut::new(rt.alloc(), 4096, 4096, &[])
        .ok()
        .ok_or("memory")?;
    let (status, disk, _world) = run(rt.alloc(), &words, &mut source, &mut out, disk);
    let written = Vec::from_slice(rt.alloc(), out.written())?;
    Ok((status, written, disk))
}

// A disk that holds no rows.
fn empty_disk(rt: &HostRuntime) -> Result<MemoryDisk, Fail> {
    let disk = MemoryDisk::new(rt.alloc(), 204_800).ok().ok_or("memory")?;
    match formatted(rt, disk)? {
        (Status::Done, disk) => Ok(disk),
        _ => Err("not formatted")?,
    }
}

// What a life acted on the next one doesn't act on.
#[test]
fn a_life_and_the_next(rt: HostRuntime) -> Result<(), Fail> {
    let disk = empty_disk(&rt)?;
    let input = format!(in rt.alloc(); "{CONFIG}{PAIR}{HEAR}{HEAR}")?;
    let (status, written, disk) = life(&rt, disk, &input)?;
    assert_eq!(rt; status, Status::Done);
    assert_eq!(rt; written.as_slice(), PAIRED.as_bytes());
    let input = format!(in rt.alloc(); "{CONFIG}3 table\n{HEAR}")?;
    let (status, written, _disk) = life(&rt, disk, &input)?;
    assert_eq!(rt; status, Status::Done);
    assert_eq!(rt; written.as_slice(), AGAIN.as_bytes());
    Ok(())
}

// The first call of the disk fails: the sink isn't set up, and nothing is written.
#[test]
fn the_first_call_of_the_disk_fails(rt: HostRuntime) -> Result<(), Fail> {
    let mut disk = empty_disk(&rt)?;
    disk.arm_fault(1, 0);
    let (status, written, _disk) = life(&rt, disk, CONFIG)?;
    assert_eq!(rt; status, Status::DiskFault);
    assert_eq!(rt; written.len(), 0);
    Ok(())
}

// A life whose disk failed, and what the next one lists.
#[derive(Drop)]
struct Behind {
    failed: Status,
    written: usize,
    next: Status,
    listed: Vec<u8>,
}

// The disk fails in this call of the commit of a pairing and crashes in this way, and the next life lists the rows.
fn rows_behind(rt: &HostRuntime, call: u64, way: u8) -> Result<Behind, Fail> {
    let mut disk = empty_disk(rt)?;
    disk.arm_fault(2, call);
    let input = format!(in rt.alloc(); "{CONFIG}{PAIR}")?;
    let (failed, written, mut disk) = life(rt, disk, &input)?;
    disk.crash(way.min(4));
    let input = format!(in rt.alloc(); "{CONFIG}3 table\n")?;
    let (next, listed, _disk) = life(rt, disk, &input)?;
    Ok(Behind {
        failed,
        written: written.len(),
        next,
        listed,
    })
}

// A fault in each call of a commit, and each way of a crash: the change is there where its gate was being opened, and the crash left
// it open.
#[test]
fn each_call_of_a_commit_fails(rt: HostRuntime) -> Result<(), Fail> {
    for call in 0..4u64 {
        for way in 0..5u8 {
            let behind = rows_behind(&rt, call, way)?;
            assert_eq!(rt; behind.failed, Status::DiskFault, "call {call}");
            assert_eq!(rt; behind.written, 0, "call {call}");
            assert_eq!(rt; behind.next, Status::Done, "call {call}, way {way}");
            let is_there = call >= 2 && (way == 1 || way == 3);
            let first: &[u8] = if is_there {
                b"2 sink rows 1\n"
            } else {
                b"2 sink rows 0\n"
            };
            assert!(rt; behind.listed.starts_with(first), "call {call}, way {way}");
        }
    }
    Ok(())
}

// A disk that isn't formatted, one that is too small, and a life in which no sink is set up.
#[test]
fn a_disk_is_refused(rt: HostRuntime) -> Result<(), Fail> {
    let cases = [
        (
            204_800u64,
            CONFIG,
            Status::DiskRefused(DiskReason::NotFormatted),
        ),
        (204_799, CONFIG, Status::DiskRefused(DiskReason::DiskShort)),
        (204_800, "", Status::Done),
        (0, "# a comment\n\n", Status::Done),
    ];
    for (size, input, status) in cases {
        let disk = MemoryDisk::new(rt.alloc(), size).ok().ok_or("memory")?;
        let (answer, written, _disk) = life(&rt, disk, input)?;
        assert_eq!(rt; answer, status, "{size}");
        assert_eq!(rt; written.len(), 0, "{size}");
    }
    Ok(())
}
