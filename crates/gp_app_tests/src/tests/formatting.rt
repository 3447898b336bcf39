//! An empty store on a disk in memory.

use gp_app::{DiskReason, Status, run};
use gp_base::{MemoryOut, MemorySource, Word};
use gp_disk::MemoryDisk;
use std::test::Fail;

// Formats a disk, over a source and an output that fail each call, and hands the disk back.
pub(super) fn formatted(rt: &HostRuntime, disk: MemoryDisk) -> Result<(Status, MemoryDisk), Fail> {
    let words = vec![in rt.alloc(); Word::of(rt.alloc(), "format").ok().ok_or("memory")?]?;
    let mut source = MemorySource::of(rt.alloc(), b"", 1, &[0])
        .ok()
        .ok_or("memory")?;
    let mut out = MemoryOut::new(rt.alloc(), 1, 1, &[0]).ok().ok_or("memory")?;
    let (status, disk, _world) = run(rt.alloc(), &words, &mut source, &mut out, disk);
    Ok((status, disk))
}

// A disk of zeros, the same again, and a disk that is one octet too small.
#[test]
fn a_disk_is_formatted_once(rt: HostRuntime) -> Result<(), Fail> {
    let disk = MemoryDisk::new(rt.alloc(), 204_800).ok().ok_or("memory")?;
    let (status, disk) = formatted(&rt, disk)?;
    assert_eq!(rt; status, Status::Done);
    let (status, _disk) = formatted(&rt, disk)?;
    assert_eq!(rt; status, Status::DiskRefused(DiskReason::AlreadyFormatted));
    let disk = MemoryDisk::new(rt.alloc(), 204_799).ok().ok_or("memory")?;
    let (status, _disk) = formatted(&rt, disk)?;
    assert_eq!(rt; status, Status::DiskRefused(DiskReason::DiskShort));
    Ok(())
}
