// Each call of each kind of commit is stopped and fails in turn, with each way of a crash.
ghost use Rattle.std.specs.Prelude.{◌≤◌};

use super::{copy, pairing, prepared, raise, recovered, retire};
use gp_disk::MemoryDisk;
use gp_rows::Row;
use gp_store::{CommitFault, Store};
use std::alloc::Global;
use std::process::Abort;
use std::test::Fail;

// A change of a store.
#[derive(Clone, Copy, Debug)]
enum Change {
    // A third pair is paired.
    New,
    // The first pair is paired again.
    Revive,
    // The first row's floor is raised.
    Floor,
    // The second row is unpaired.
    Retire,
}

// Makes it.
fn make(rt: &impl Abort, store: &mut Store<MemoryDisk>, change: Change) -> Result<(), CommitFault> {
    match change {
        Change::New => match store.commit_row(pairing(3)) {
            Ok(_) => Ok(()),
            Err(fault) => Err(fault),
        },
        Change::Revive => match store.commit_row(pairing(1)) {
            Ok(_) => Ok(()),
            Err(fault) => Err(fault),
        },
        Change::Floor => raise(rt, store, 0, 100),
        Change::Retire => retire(rt, store, 1, 9),
    }
}

// The rows before a commit and after it.
#[derive(Drop)]
struct Rows {
    before: Vec<Row>,
    after: Vec<Row>,
}

// One commit that is stopped or fails after so many calls. It gives its answer, the rows that the store then shows, and the
// rows that a recovery finds after a crash.
fn broken(
    rt: &impl Abort,
    alloc: Global,
    change: Change,
    calls: u64,
    way: u8,
    is_fault: bool,
) -> Result<(Result<(), CommitFault>, Vec<Row>, Vec<Row>), Fail>
    requires { way ≤ 4 }
{
    let mut store = prepared(rt, alloc)?;
    if is_fault {
        store.arm_fault(1, calls);
    } else {
        store.arm_cut(1, calls);
    }
    let answer = make(rt, &mut store, change);
    let shown = copy(alloc, store.rows())?;
    let mut disk = store.into_disk();
    disk.crash(way);
    let found = copy(alloc, recovered(rt, alloc, disk).rows())?;
    Ok((answer, shown, found))
}

// After Ok both are the rows after the commit; else the store shows those before it, and a recovery finds either. Before the
// first call nothing is written, and after six calls all is.
fn judge(
    rt: &impl Abort,
    rows: &Rows,
    calls: u64,
    answer: Result<(), CommitFault>,
    shown: &[Row],
    found: &[Row],
) {
    let before = rows.before.as_slice();
    let after = rows.after.as_slice();
    if answer.is_ok() {
        assert!(rt; shown == after && found == after);
    } else {
        assert_eq!(rt; answer, Err(CommitFault::DiskFault));
        assert!(rt; shown == before && (found == before || found == after));
    }
    assert!(rt; calls > 0 || found == before);
    assert!(rt; calls < 6 || found == after);
}

// Each way of a crash, after a stop and after a fault.
fn each_way(
    rt: &impl Abort,
    alloc: Global,
    change: Change,
    rows: &Rows,
    calls: u64,
) -> Result<(), Fail> {
    for way in 0..5 {
        let (answer, shown, found) = broken(rt, alloc, change, calls, way, false)?;
        judge(rt, rows, calls, answer, &shown, &found);
        let (answer, shown, found) = broken(rt, alloc, change, calls, way, true)?;
        judge(rt, rows, calls, answer, &shown, &found);
    }
    Ok(())
}

// The rows before this commit and after it, which differ.
fn rows_of(rt: &impl Abort, alloc: Global, change: Change) -> Result<Rows, Fail> {
    let mut store = prepared(rt, alloc)?;
    let before = copy(alloc, store.rows())?;
    assert_eq!(rt; make(rt, &mut store, change), Ok(()));
    let after = copy(alloc, store.rows())?;
    assert_ne!(rt; before, after);
    Ok(Rows { before, after })
}

fn each_call(rt: &impl Abort, alloc: Global, change: Change) -> Result<(), Fail> {
    let rows = rows_of(rt, alloc, change)?;
    for calls in 0..7 {
        each_way(rt, alloc, change, &rows, calls)?;
    }
    Ok(())
}

#[test]
fn a_new_row_is_cut(rt: HostRuntime) -> Result<(), Fail> {
    each_call(&rt, rt.alloc(), Change::New)
}

#[test]
fn a_revived_row_is_cut(rt: HostRuntime) -> Result<(), Fail> {
    each_call(&rt, rt.alloc(), Change::Revive)
}

#[test]
fn a_floor_is_cut(rt: HostRuntime) -> Result<(), Fail> {
    each_call(&rt, rt.alloc(), Change::Floor)
}

#[test]
fn a_retirement_is_cut(rt: HostRuntime) -> Result<(), Fail> {
    each_call(&rt, rt.alloc(), Change::Retire)
}

#[test]
fn a_halted_store_stays_so(rt: HostRuntime) -> Result<(), Fail> {
    let alloc = rt.alloc();
    let mut store = prepared(&rt, alloc)?;
    assert_eq!(rt; store.generation(), 3);
    assert!(rt; !store.is_halted());
    store.arm_fault(1, 0);
    assert_eq!(rt; raise(&rt, &mut store, 0, 100), Err(CommitFault::DiskFault));
    assert!(rt; store.is_halted());
    assert_eq!(rt; raise(&rt, &mut store, 0, 100), Err(CommitFault::Halted));
    assert_eq!(rt; store.commit_row(pairing(3)), Err(CommitFault::Halted));
    assert_eq!(rt; store.generation(), 3);
    match store.undecided() {
        Some((at, row)) => {
            assert_eq!(rt; at, 0);
            assert_eq!(rt; row.floor, 100);
        }
        None => panic!(rt; "nothing is undecided"),
    }
    Ok(())
}
