// Armings, which fall in the commit that they name.
use super::{prepared, raise};
use gp_store::CommitFault;
use std::alloc::Global;
use std::process::Abort;
use std::test::Fail;

// An arming of the second commit from now is due from its begin on, and falls after so many calls.
fn falls(rt: &impl Abort, alloc: Global, is_fault: bool) -> Result<(), Fail> {
    let mut store = prepared(rt, alloc)?;
    if is_fault {
        store.arm_fault(2, 3);
    } else {
        store.arm_cut(2, 3);
    }
    assert!(rt; !store.due() && !store.stopped());
    assert_eq!(rt; raise(rt, &mut store, 0, 100), Ok(()));
    assert!(rt; !store.due() && !store.stopped());
    assert_eq!(rt; raise(rt, &mut store, 0, 101), Err(CommitFault::DiskFault));
    assert!(rt; store.due());
    assert_eq!(rt; store.stopped(), !is_fault);
    Ok(())
}

#[test]
fn an_arming_falls_in_its_commit(rt: HostRuntime) -> Result<(), Fail> {
    falls(&rt, rt.alloc(), false)?;
    falls(&rt, rt.alloc(), true)
}
