// Recoveries that are stopped or fail.
ghost use Rattle.std.specs.Prelude.{◌≤◌};

use super::{copy, prepared, recovered};
use gp_disk::MemoryDisk;
use gp_rows::Row;
use gp_store::{Refused, Store, StoreFault};
use std::alloc::Global;
use std::process::Abort;
use std::test::Fail;

// One recovery that is stopped or fails after so many calls, and then a crash: a second one finds the same rows. It gives
// the disk back.
fn restarted(
    rt: &impl Abort,
    alloc: Global,
    disk: MemoryDisk,
    rows: &[Row],
    calls: u64,
    way: u8,
    is_fault: bool,
) -> Result<MemoryDisk, Fail>
    requires { way ≤ 4 }
{
    let mut disk = disk;
    if is_fault {
        disk.arm_fault(1, calls);
    } else {
        disk.arm_cut(1, calls);
    }
    let mut disk = match Store::recover(alloc, disk) {
        Ok(store) => {
            assert_eq!(rt; calls, 2050);
            assert_eq!(rt; copy(alloc, store.rows())?.as_slice(), rows);
            store.into_disk()
        }
        Err(refused) => {
            let Refused { fault, disk } = refused;
            assert_eq!(rt; fault, StoreFault::DiskFault);
            assert!(rt; calls < 2050);
            disk
        }
    };
    disk.crash(way);
    let store = recovered(rt, alloc, disk);
    assert_eq!(rt; copy(alloc, store.rows())?.as_slice(), rows);
    Ok(store.into_disk())
}

// Each way of a crash, after a stop and after a fault.
fn each_way(
    rt: &impl Abort,
    alloc: Global,
    disk: MemoryDisk,
    rows: &[Row],
    calls: u64,
) -> Result<MemoryDisk, Fail> {
    let mut disk = disk;
    for way in 0..5 {
        disk = restarted(rt, alloc, disk, rows, calls, way, false)?;
        disk = restarted(rt, alloc, disk, rows, calls, way, true)?;
    }
    Ok(disk)
}

// Each of the 2,050 calls of a recovery of two rows is stopped and fails in turn, with each way of a crash.
#[test]
fn a_cut_or_a_fault_of_a_recovery_changes_nothing(rt: HostRuntime) -> Result<(), Fail> {
    let alloc = rt.alloc();
    let store = prepared(&rt, alloc)?;
    let rows = copy(alloc, store.rows())?;
    let mut disk = store.into_disk();
    for calls in 0..2051 {
        disk = each_way(&rt, alloc, disk, &rows, calls)?;
    }
    Ok(())
}
