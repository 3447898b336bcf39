// Single rows, read from a disk.
use super::{prepared, raise, recovered};
use gp_base::Failed;
use gp_disk::{Disk, MemoryDisk};
use gp_rows::{Row, Table};
use gp_store::{CommitFault, held};
use std::alloc::Global;
use std::process::Abort;
use std::test::Fail;

// The rows of a store that has two.
fn two_rows(rt: &impl Abort, table: &Table) -> (Row, Row) {
    if table.count() != 2 {
        panic!(rt; "there aren't two rows");
    }
    (*table.row(0), *table.row(1))
}

// Each row is read from the disk as a recovery shows it.
fn held_as_shown(rt: &impl Abort, alloc: Global, disk: MemoryDisk) {
    let store = recovered(rt, alloc, disk);
    let (first, second) = two_rows(rt, store.rows());
    let mut disk = store.into_disk();
    assert_eq!(rt; held(&mut disk, 0), Ok(Some(first)));
    assert_eq!(rt; held(&mut disk, 1), Ok(Some(second)));
    assert_eq!(rt; held(&mut disk, 2), Ok(None));
    assert_eq!(rt; held(&mut disk, 1024), Ok(None));
}

// A fault of a commit after so many calls, with each way of a crash.
fn held_after_a_fault(rt: &impl Abort, alloc: Global, calls: u64) -> Result<(), Fail> {
    for way in 0..5 {
        let mut store = prepared(rt, alloc)?;
        store.arm_fault(1, calls);
        assert_eq!(rt; raise(rt, &mut store, 0, 100), Err(CommitFault::DiskFault));
        let mut disk = store.into_disk();
        disk.crash(way);
        held_as_shown(rt, alloc, disk);
    }
    Ok(())
}

#[test]
fn a_row_is_held_as_the_store_shows_it(rt: HostRuntime) -> Result<(), Fail> {
    let alloc = rt.alloc();
    let store = prepared(&rt, alloc)?;
    assert_eq!(rt; two_rows(&rt, store.rows()).0.floor, 8);
    held_as_shown(&rt, alloc, store.into_disk());
    for calls in 0..6 {
        held_after_a_fault(&rt, alloc, calls)?;
    }
    Ok(())
}

#[test]
fn a_failing_read_of_a_row_is_told(rt: HostRuntime) -> Result<(), Fail> {
    let alloc = rt.alloc();
    for calls in 0..2 {
        let store = recovered(&rt, alloc, prepared(&rt, alloc)?.into_disk());
        let (first, _) = two_rows(&rt, store.rows());
        let mut disk = store.into_disk();
        disk.arm_fault(1, calls);
        disk.begin();
        assert_eq!(rt; held(&mut disk, 1024), Ok(None));
        assert_eq!(rt; held(&mut disk, 0), Err(Failed));
        assert_eq!(rt; held(&mut disk, 0), Ok(Some(first)));
    }
    Ok(())
}
