// Formattings that are stopped or fail, and those that are refused.
ghost use Rattle.std.specs.Prelude.{◌≤◌};

use super::SIZE;
use gp_disk::MemoryDisk;
use gp_store::{Store, StoreFault, format};
use std::alloc::Global;
use std::process::Abort;
use std::test::Fail;

// A formatting that is stopped or fails after so many calls, and then a crash: a recovery finds no rows, or a disk that isn't
// formatted, and that only after DiskFault.
fn broken(rt: &impl Abort, alloc: Global, calls: u64, way: u8, is_fault: bool) -> Result<(), Fail>
    requires { way ≤ 4 }
{
    let mut disk = MemoryDisk::new(alloc, SIZE).ok().ok_or("no memory")?;
    if is_fault {
        disk.arm_fault(1, calls);
    } else {
        disk.arm_cut(1, calls);
    }
    let answer = format(&mut disk);
    disk.crash(way);
    match Store::recover(alloc, disk) {
        Ok(store) => assert_eq!(rt; store.rows().count(), 0),
        Err(refused) => {
            assert_eq!(rt; refused.fault, StoreFault::NotFormatted);
            assert_eq!(rt; answer, Err(StoreFault::DiskFault));
        }
    }
    Ok(())
}

// Each way of a crash, after a stop and after a fault.
fn each_way(rt: &impl Abort, alloc: Global, calls: u64) -> Result<(), Fail> {
    for way in 0..5 {
        broken(rt, alloc, calls, way, false)?;
        broken(rt, alloc, calls, way, true)?;
    }
    Ok(())
}

#[test]
fn a_cut_or_a_fault_of_a_formatting_leaves_no_rows(rt: HostRuntime) -> Result<(), Fail> {
    for calls in 0..9 {
        each_way(&rt, rt.alloc(), calls)?;
    }
    Ok(())
}

#[test]
fn a_disk_is_refused_by_name(rt: HostRuntime) -> Result<(), Fail> {
    let alloc = rt.alloc();
    let mut short = MemoryDisk::new(alloc, SIZE - 1).ok().ok_or("no memory")?;
    assert_eq!(rt; format(&mut short), Err(StoreFault::DiskShort));
    let mut disk = MemoryDisk::new(alloc, SIZE).ok().ok_or("no memory")?;
    assert_eq!(rt; format(&mut disk), Ok(()));
    assert_eq!(rt; format(&mut disk), Err(StoreFault::AlreadyFormatted));
    let blank = MemoryDisk::new(alloc, SIZE).ok().ok_or("no memory")?;
    match Store::recover(alloc, blank) {
        Ok(_) => panic!(rt; "a disk of zeros is formatted"),
        Err(refused) => assert_eq!(rt; refused.fault, StoreFault::NotFormatted),
    }
    Ok(())
}
