//! What no contract says: the five ways of a crash on given octets, and what a file holds.

ghost use Rattle.std.specs.Prelude.{◌≡◌, ◌≤◌, false};
ghost use Rattle.gp_disk.specs.Memory.{memory_tally};

use gp_disk::{Disk, FileDisk, MemoryDisk, stable, stable_zero};
use std::alloc::Global;
use std::fs;
use std::process::Abort;
use std::test::Fail;

/// Whether each of five calls after a `begin` goes through: a write, a sync, a read, zeros, a sync.
fn five_calls(disk: &mut MemoryDisk) -> [bool; 5]
    requires size { (memory_tally disk.old).size ≡ 16 }
    requires pending { (memory_tally disk.old).pending ≡ false }
{
    disk.begin();
    let written = disk.write_at(2, &[1, 2, 3]).is_ok();
    let synced = disk.sync().is_ok();
    let mut octets = [0; 4];
    let read = disk.read(0, &mut octets).is_ok();
    let zeroed = disk.zero(8, 2).is_ok();
    let settled = disk.sync().is_ok();
    [written, synced, read, zeroed, settled]
}

/// A fault falls at the call for which it is armed, and at no other.
fn falls_as_a_fault(rt: &impl Abort, alloc: Global, calls: u64) -> Result<(), Fail> {
    let mut disk = MemoryDisk::new(alloc, 16)?;
    disk.arm_fault(1, calls);
    assert!(rt; !disk.due());
    let answers = five_calls(&mut disk);
    for i in 0..5usize {
        assert_eq!(rt;
            answers[i],
            i as u64 != calls,
            "call {i}, a fault at {calls}"
        );
    }
    assert!(rt; disk.due());
    assert!(rt; !disk.stopped());
    disk.begin();
    assert!(rt; !disk.due());
    Ok(())
}

/// A stop falls at the call for which it is armed, and at all behind it.
fn falls_as_a_stop(rt: &impl Abort, alloc: Global, calls: u64) -> Result<(), Fail> {
    let mut disk = MemoryDisk::new(alloc, 16)?;
    disk.arm_cut(1, calls);
    let answers = five_calls(&mut disk);
    for i in 0..5usize {
        assert_eq!(rt;
            answers[i],
            (i as u64) < calls,
            "call {i}, a stop at {calls}"
        );
    }
    assert!(rt; disk.due());
    assert_eq!(rt; disk.stopped(), calls < 5);
    disk.crash(0);
    assert!(rt; !disk.due());
    assert!(rt; !disk.stopped());
    Ok(())
}

#[test]
fn a_stop_and_a_fault_fall_where_they_are_armed(rt: HostRuntime) -> Result<(), Fail> {
    for calls in 0..6u64 {
        falls_as_a_fault(&rt, rt.alloc(), calls)?;
        falls_as_a_stop(&rt, rt.alloc(), calls)?;
    }
    Ok(())
}

#[test]
fn an_arming_waits(rt: HostRuntime) -> Result<(), Fail> {
    let mut disk = MemoryDisk::new(rt.alloc(), 16)?;
    disk.arm_cut(2, 0);
    disk.defer();
    disk.begin();
    disk.crash(0);
    disk.begin();
    assert!(rt; !disk.due());
    disk.begin();
    assert!(rt; disk.due());
    disk.defer();
    assert!(rt; disk.due());
    Ok(())
}

/// The octets that a crash in one way leaves, where three ranges are pending on eight octets that are settled.
fn struck(rt: &HostRuntime, way: u8) -> Result<[u8; 12], Fail>
    requires { way ≤ 4 }
{
    let mut disk = MemoryDisk::new(rt.alloc(), 12)?;
    disk.begin();
    disk.write_at(0, &[1, 2, 3, 4, 5, 6, 7, 8])?;
    disk.sync()?;
    disk.write_at(2, &[0x11, 0x22, 0x33])?;
    disk.write_at(4, &[0x44, 0x55])?;
    disk.zero(6, 3)?;
    disk.begin();
    disk.crash(way);
    let mut octets = [0; 12];
    disk.read(0, &mut octets)?;
    Ok(octets)
}

#[test]
fn a_crash_has_five_ways(rt: HostRuntime) -> Result<(), Fail> {
    let images = [
        [1, 2, 3, 4, 5, 6, 7, 8, 0, 0, 0, 0],
        [1, 2, 0x11, 0x22, 0x44, 0x55, 0, 0, 0, 0, 0, 0],
        [1, 2, 0x11, 4, 0x44, 6, 0, 8, 0, 0, 0, 0],
        [1, 2, 0xA5, 0xA5, 0xA5, 0xA5, 0xA5, 0xA5, 0xA5, 0, 0, 0],
        [1, 2, 0xEE, 0xDD, 0xBB, 0xAA, 0xFF, 0xFF, 0xFF, 0, 0, 0],
    ];
    for way in 0..5u8 {
        assert_eq!(rt; struck(&rt, way)?, images[way as usize], "{way}");
    }
    Ok(())
}

#[test]
fn a_failing_read_gives_nothing(rt: HostRuntime) -> Result<(), Fail> {
    let mut disk = MemoryDisk::new(rt.alloc(), 4)?;
    disk.arm_fault(1, 0);
    disk.begin();
    let mut octets = [9; 4];
    assert!(rt; disk.read(0, &mut octets).is_err());
    assert_eq!(rt; octets, [9; 4]);
    Ok(())
}

#[test]
fn a_failing_write_stores_its_first_half(rt: HostRuntime) -> Result<(), Fail> {
    let mut disk = MemoryDisk::new(rt.alloc(), 4)?;
    disk.arm_fault(1, 0);
    disk.begin();
    assert!(rt; disk.write_at(0, &[1, 2, 3]).is_err());
    let mut octets = [9; 4];
    disk.read(0, &mut octets)?;
    assert_eq!(rt; octets, [1, 0, 0, 0]);
    disk.crash(1);
    disk.read(0, &mut octets)?;
    assert_eq!(rt; octets, [1, 2, 3, 0]);
    Ok(())
}

const FOLDER: &str = "gp_disk_test";

const PATH: &str = "gp_disk_test/gp.disk";

#[test]
fn a_file_holds_what_was_written(rt: HostRuntime) -> Result<(), Fail> {
    let _ = fs::remove_dir_all(&rt, FOLDER);
    fs::create_dir(&rt, FOLDER)?;
    let mut disk = FileDisk::at(&rt, rt.alloc(), PATH)?;
    assert_eq!(rt; disk.size(), 2_097_152);
    disk.begin();
    assert!(rt; !fs::exists(&rt, PATH)?);
    disk.sync()?;
    assert_eq!(rt; fs::read(&rt, PATH)?.as_slice(), [].as_slice());
    stable(&mut disk, 3, b"abcdef")?;
    assert_eq!(rt; fs::read(&rt, PATH)?.as_slice(), b"\0\0\0abcdef".as_slice());
    stable_zero(&mut disk, 5, 5_000)?;
    assert_eq!(rt; fs::read(&rt, PATH)?.len(), 5_005);
    let mut octets = [9; 8];
    disk.read(2, &mut octets)?;
    assert_eq!(rt; octets, *b"\0ab\0\0\0\0\0");
    disk.read(2_097_144, &mut octets)?;
    assert_eq!(rt; octets, [0; 8]);
    drop(disk);
    let mut again = FileDisk::at(&rt, rt.alloc(), PATH)?;
    again.read(3, &mut octets)?;
    assert_eq!(rt; octets, *b"ab\0\0\0\0\0\0");
    fs::remove_dir_all(&rt, FOLDER)?;
    Ok(())
}

// A file in a folder that isn't there.
#[test]
fn a_failing_read_or_sync_of_a_file(rt: HostRuntime) -> Result<(), Fail> {
    let mut octets = [9; 8];
    let mut absent = FileDisk::at(&rt, rt.alloc(), "gp_disk_none/gp.disk")?;
    assert!(rt; absent.read(0, &mut octets).is_err());
    assert_eq!(rt; octets, [9; 8]);
    assert!(rt; absent.sync().is_err());
    Ok(())
}
