//! A sink whose power goes: its disk crashes, and the image that it then holds decides an open change.
ghost use Rattle.std.specs.Prelude.{◌≡◌, ◌≤◌, ◌↔◌, ◌||◌, ℕ, true, false, List, IsTrue, is_some, Some, IfSome};
ghost use Rattle.gp_disk.specs.Disk.{Same};
ghost use Rattle.gp_disk.specs.Memory.{memory_fuse, memory_image, memory_may_leave};
ghost use Rattle.gp_store.specs.Held.{IsRowOf, held_calls};
ghost use Rattle.gp_store.specs.Untouched.{GoesOn};
ghost use Rattle.gp_power.specs.Inside.{IsAlike, IsCalm, IsCrashed, Repeats, Settles};

use gp_disk::MemoryDisk;
use gp_rows::{Row, Table};
use gp_sink::Sink;
use gp_store::held;
use gp_translate::Rules;

// Whether two rows have one SrcID and key.
fn is_same_pair(row: &Row, value: &Row) -> bool
    ensures { IsTrue result ↔ ((row.now.src.0 ≡ value.now.src.0) × (row.now.key.0 ≡ value.now.key.0)) }
{
    row.src == value.src && row.key == value.key
}

// Whether two rows have one kind, level and mode.
fn is_same_kind(row: &Row, value: &Row) -> bool
    ensures { IsTrue result ↔ ((row.now.kind ≡ value.now.kind) × (row.now.level ≡ value.now.level) × (row.now.mode ≡ value.now.mode)) }
{
    row.kind == value.kind && row.level == value.level && row.mode == value.mode
}

// Whether two rows have one group, device and floor, and both are live or neither.
fn is_same_state(row: &Row, value: &Row) -> bool
    ensures { IsTrue result ↔ ((row.now.group ≡ value.now.group) × (row.now.device ≡ value.now.device) × (row.now.live ≡ value.now.live) × (row.now.floor ≡ value.now.floor)) }
{
    row.group == value.group
        && row.device == value.device
        && row.live == value.live
        && row.floor == value.floor
}

// Whether two rows are the same in all but order.
fn is_alike(row: &Row, value: &Row) -> bool
    ensures yes { result ≡ true → IsAlike row.now value.now }
    ensures no { result ≡ false → IsAlike row.now value.now → ⊥ }
{
    is_same_pair(row, value) && is_same_kind(row, value) && is_same_state(row, value)
}

// Whether two rows are the same.
fn is_same(row: &Row, value: &Row) -> bool
    ensures yes { result ≡ true → row.now ≡ value.now }
    ensures no { result ≡ false → row.now ≡ value.now → ⊥ }
{
    row.order == value.order && is_alike(row, value)
}

// Whether the rows repeat a change that gives this row these values: it is the current row of its SrcID, and has them.
fn repeats(table: &Table, at: u16, value: &Row) -> bool
    ensures yes { result ≡ true → Repeats table.now at value.now }
    ensures no { result ≡ false → Repeats table.now at value.now → ⊥ }
{
    match table.current(value.src) {
        Some(current) => current == at && is_alike(table.row(at), value),
        None => false,
    }
}

// Whether the disk holds this row at this number.
fn holds(disk: &mut MemoryDisk, at: u16, value: &Row) -> bool
    requires { IsCalm (memory_fuse disk.old) }
    ensures found { (c : List ℕ) → memory_image disk.old ≡ Some c → (row : _) × IsRowOf c at row × (result ≡ true → row ≡ Some value.now) × (result ≡ false → row ≡ Some value.now → ⊥) }
    ensures image { memory_image disk.new ≡ memory_image disk.old }
    ensures images { Same (memory_may_leave disk.old) (memory_may_leave disk.new) }
    ensures fuse { GoesOn held_calls (memory_fuse disk.old) (memory_fuse disk.new) }
{
    match held(disk, at) {
        Ok(Some(row)) => is_same(&row, value),
        Ok(None) => false,
        Err(_) => unreachable!(),
    }
}

/// Crashes a disk in one of five ways.
pub fn crash(disk: MemoryDisk, way: u8) -> MemoryDisk
    requires { way ≤ 4 }
    ensures crashed { IsCrashed disk result }
    ensures calm { IsCalm (memory_fuse result) }
{
    let mut disk = disk;
    disk.crash(way);
    disk
}

// One or the other.
fn either(one: bool, other: bool) -> bool
    ensures { result ≡ (one || other) }
{
    one || other
}

/// Takes the power from a sink: its disk crashes in this way. Where a change is open the bit tells whether the disk holds it.
///
/// A change that repeats what stands is held by the rows from before it too: of it the bit is yes.
pub fn fall(sink: Sink<MemoryDisk>, way: u8) -> (Rules, MemoryDisk, Option<bool>)
    requires { way ≤ 4 }
    ensures rules { result.0 ≡ sink.rules }
    ensures crashed { IsCrashed sink.store.disk result.1 }
    ensures bit { Settles sink.store result.1 result.2 }
    ensures there { is_some result.2 ≡ is_some sink.store.undecided }
{
    match sink.undecided() {
        None => {
            let (_, rules, disk) = sink.into_parts();
            (rules, crash(disk, way), None)
        }
        Some((at, value)) => {
            let once = repeats(sink.rows(), at, &value);
            let (_, rules, disk) = sink.into_parts();
            let mut disk = crash(disk, way);
            let found = holds(&mut disk, at, &value);
            (rules, disk, Some(either(once, found)))
        }
    }
}
