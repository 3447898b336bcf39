//! A store that is recovered and raised.
ghost use Rattle.std.specs.Prelude.{◌≡◌, ◌<◌, ◌≤◌, true};

use anyhow::{Context, Result, ensure};
use gp_base::{Key, KeyKind, Level, Mode, Src};
use gp_disk::MemoryDisk;
use gp_rows::Row;
use gp_store::{Store, format};
use std::alloc::Global;

// The octets of a disk.
const SIZE: u64 = 204_800;

// A pairing of a device of its own.
fn pairing(number: u16) -> Row
    ensures above { 1 ≤ result.src.0 }
    ensures below { result.src.0 ≤ 0xFFFFFFF8 }
    ensures live { result.live ≡ true }
{
    Row {
        src: Src(1 + u32::from(number)),
        key: Key([7; 16]),
        kind: KeyKind::OutOfBox,
        level: Level::Two,
        mode: Mode::Derived,
        group: 0x4321,
        device: 2,
        order: 0,
        live: true,
        floor: 0,
    }
}

// Raises the floor of a row by one, and tells whether that was committed.
fn raise(store: &mut Store<MemoryDisk>, at: u16) -> bool {
    if at >= store.rows().count() {
        return false;
    }
    let floor = store.rows().row(at).floor;
    if floor == u32::MAX {
        return false;
    }
    store.commit_floor(at, floor + 1).is_ok()
}

// The store of a disk, where it is recovered.
fn recovered(alloc: Global, disk: MemoryDisk) -> Option<Store<MemoryDisk>> {
    Store::recover(alloc, disk).ok()
}

/// A store of so many rows, each with both slots open.
pub fn filled(alloc: Global, rows: u16) -> Option<Store<MemoryDisk>> {
    let mut disk = MemoryDisk::new(alloc, SIZE).ok()?;
    format(&mut disk).ok()?;
    let mut store = recovered(alloc, disk)?;
    for number in 0..rows {
        store.commit_row(pairing(number)).ok()?;
    }
    for at in 0..rows {
        if !raise(&mut store, at) {
            return None;
        }
    }
    Some(store)
}

/// Recovers a store of so many rows, each with both slots open, so often, commits so many floors, and prints the rows and the
/// last generation.
pub fn run(rt: &HostRuntime, (rows, recoveries, floors): (u32, u32, u32)) -> Result<()> {
    ensure!(0 < rows && rows <= 1024, "1 to 1,024 rows");
    let mut store = filled(rt.alloc(), rows as u16).context("the store isn't filled")?;
    for _ in 0..recoveries {
        store = recovered(rt.alloc(), store.into_disk()).context("the disk isn't recovered")?;
    }
    for floor in 0..floors {
        ensure!(
            raise(&mut store, (floor % rows) as u16),
            "a floor isn't committed"
        );
    }
    println!(rt;
        "rows {} generation {}",
        store.rows().count(),
        store.generation()
    )?;
    Ok(())
}
