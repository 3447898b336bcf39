ghost use Rattle.std.specs.Prelude.{◌≡◌, ◌≤◌, true};
ghost use Rattle.gp_disk.specs.Memory.{memory_image};
ghost use Rattle.gp_store.specs.Image.{HoldsRows};
ghost use Rattle.gp_store.specs.Recovery.{Told};

use gp_base::{Key, KeyKind, Level, Mode, Src};
use gp_disk::MemoryDisk;
use gp_rows::{Row, Table};
use gp_store::{CommitFault, Refused, Store, format};
use std::alloc::{AllocError, Global};
use std::process::Abort;
use std::test::Fail;

mod armings;
mod commits;
mod formattings;
mod octets;
mod readings;
mod recoveries;

const SIZE: u64 = 204_800;

// A pairing with this key, before its commit.
fn pairing(key: u8) -> Row
    ensures source { result.src.0 ≡ 0x87654321 }
    ensures live { result.live ≡ true }
{
    Row {
        src: Src(0x8765_4321),
        key: Key([key; 16]),
        kind: KeyKind::OutOfBox,
        level: Level::Three,
        mode: Mode::Commissioned,
        group: 0x1234,
        device: 2,
        order: 0,
        live: true,
        floor: 7,
    }
}

// The store of a disk that has one.
fn recovered(rt: &impl Abort, alloc: Global, disk: MemoryDisk) -> Store<MemoryDisk>
    ensures { Told (memory_image result.disk) (λ d. HoldsRows d result.rows) }
{
    match Store::recover(alloc, disk) {
        Ok(store) => store,
        Err(refused) => {
            let Refused { fault, disk: _ } = refused;
            panic!(rt; "{fault:?}")
        }
    }
}

// A formatted disk with two rows, of which the first has both slots open.
fn prepared(rt: &impl Abort, alloc: Global) -> Result<Store<MemoryDisk>, Fail> {
    let mut disk = MemoryDisk::new(alloc, SIZE).ok().ok_or("no memory")?;
    assert_eq!(rt; format(&mut disk), Ok(()));
    let mut store = recovered(rt, alloc, disk);
    assert_eq!(rt; store.commit_row(pairing(1)), Ok(0));
    assert_eq!(rt; store.commit_row(pairing(2)), Ok(1));
    assert_eq!(rt; raise(rt, &mut store, 0, 8), Ok(()));
    Ok(store)
}

// Accepts a counter above the row's floor.
fn raise(
    rt: &impl Abort,
    store: &mut Store<MemoryDisk>,
    at: u16,
    counter: u32,
) -> Result<(), CommitFault> {
    if at >= store.rows().count() || store.rows().row(at).floor >= counter {
        panic!(rt; "no row {at} with a floor below {counter}");
    }
    store.commit_floor(at, counter)
}

// Unpairs by a counter above the row's floor.
fn retire(
    rt: &impl Abort,
    store: &mut Store<MemoryDisk>,
    at: u16,
    counter: u32,
) -> Result<(), CommitFault> {
    if at >= store.rows().count() || store.rows().row(at).floor >= counter {
        panic!(rt; "no row {at} with a floor below {counter}");
    }
    store.retire(at, counter)
}

// The rows of a table.
fn copy(alloc: Global, table: &Table) -> Result<Vec<Row>, AllocError> {
    let mut rows = Vec::new(alloc);
    for at in 0..table.count() {
        rows.push(*table.row(at))?;
    }
    Ok(rows)
}
