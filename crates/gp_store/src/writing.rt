//! One slot is rewritten: its gate is closed where it is open, the octets behind it are written, it is opened. Each of
//! the three is on the disk before the next begins.
ghost use Rattle.std.specs.Prelude.{◌≡◌, ◌+◌, ◌<◌, ◌≤◌, false, true, length, OnOk, is_ok, if◌then◌else◌};
ghost use Rattle.gp_disk.specs.Disk.{IsQuiet};
ghost use Rattle.gp_disk.specs.Durable.{seen};
ghost use Rattle.gp_disk.specs.Fuse.{burnt, Foretold};
ghost use Rattle.gp_rows.specs.Rows.{CAPACITY};
ghost use Rattle.gp_store.specs.Image.{IMAGE_SIZE, format_1};
ghost use Rattle.gp_store.specs.Writes.{Rewrites, Rewritten, Closes, Closed, Filled, Opens, IsOpened, GrowsBy, Becomes, Steps, TellsOpen, after_stable, after_closing, after_rewrite, rewrite_calls};

use crate::layout::{OPEN, Slot};
use gp_base::Failed;
use gp_disk::{Disk, stable};

// Closes the gate of a slot that is open, and makes no call where it is closed.
fn close<D: Disk>(disk: &mut D, slot: Slot, is_open: bool) -> Result<(), Failed>
    requires size { IMAGE_SIZE ≤ (D.tally disk.old).size }
    requires row { slot.row < CAPACITY }
    requires calls { (D.tally disk.old).writes + 2 ≤ 16 }
    requires room { (D.tally disk.old).octets + 1 ≤ 262400 }
    requires settled { (D.tally disk.old).unsettled ≡ false }
    requires quiet { IsQuiet (D.tally disk.old) (D.image disk.old) (D.may_leave disk.old) }
    requires tells { TellsOpen format_1 slot.row slot.odd is_open (D.image disk.old) }
    ensures since { GrowsBy (Closes format_1 slot.row slot.odd) (D.image disk.old) (D.left disk.old) (D.left disk.new) }
    ensures written { OnOk result (Becomes (Closed format_1 slot.row slot.odd) (D.image disk.old) (D.image disk.new)) }
    ensures steps { Steps 2 result (seen D.Disk disk.old) (seen D.Disk disk.new) }
    ensures tally { OnOk result (D.tally disk.new ≡ after_closing is_open (D.tally disk.old)) }
    ensures fuse { D.fuse disk.new ≡ (if is_open then burnt 2 (D.fuse disk.old) else D.fuse disk.old) }
    ensures foretold { is_open ≡ true → Foretold 2 (D.fuse disk.old) (is_ok result) }
    ensures no_call { is_open ≡ false → is_ok result ≡ true }
{
    if is_open {
        stable(disk, slot.gate(), &[0])
    } else {
        Ok(())
    }
}

// Writes the octets behind the gate of a slot that is closed.
fn fill<D: Disk>(disk: &mut D, slot: Slot, octets: &[u8]) -> Result<(), Failed>
    requires size { IMAGE_SIZE ≤ (D.tally disk.old).size }
    requires row { slot.row < CAPACITY }
    requires behind { length octets.now ≡ 63 }
    requires calls { (D.tally disk.old).writes + 2 ≤ 16 }
    requires room { (D.tally disk.old).octets + 63 ≤ 262400 }
    requires settled { (D.tally disk.old).unsettled ≡ false }
    requires quiet { IsQuiet (D.tally disk.old) (D.image disk.old) (D.may_leave disk.old) }
    requires tells { TellsOpen format_1 slot.row slot.odd false (D.image disk.old) }
    ensures since { GrowsBy (Closed format_1 slot.row slot.odd) (D.image disk.old) (D.left disk.old) (D.left disk.new) }
    ensures written { OnOk result (Becomes (Filled format_1 slot.row slot.odd octets.now) (D.image disk.old) (D.image disk.new)) }
    ensures steps { Steps 2 result (seen D.Disk disk.old) (seen D.Disk disk.new) }
    ensures tally { OnOk result (D.tally disk.new ≡ after_stable 63 (D.tally disk.old)) }
    ensures fuse { D.fuse disk.new ≡ burnt 2 (D.fuse disk.old) }
    ensures foretold { Foretold 2 (D.fuse disk.old) (is_ok result) }
{
    stable(disk, slot.gate() + 1, octets)
}

// Opens the gate of a slot.
fn open<D: Disk>(disk: &mut D, slot: Slot) -> Result<(), Failed>
    requires size { IMAGE_SIZE ≤ (D.tally disk.old).size }
    requires row { slot.row < CAPACITY }
    requires calls { (D.tally disk.old).writes + 2 ≤ 16 }
    requires room { (D.tally disk.old).octets + 1 ≤ 262400 }
    requires settled { (D.tally disk.old).unsettled ≡ false }
    requires quiet { IsQuiet (D.tally disk.old) (D.image disk.old) (D.may_leave disk.old) }
    ensures since { GrowsBy (Opens format_1 slot.row slot.odd) (D.image disk.old) (D.left disk.old) (D.left disk.new) }
    ensures written { OnOk result (Becomes (IsOpened format_1 slot.row slot.odd) (D.image disk.old) (D.image disk.new)) }
    ensures steps { Steps 2 result (seen D.Disk disk.old) (seen D.Disk disk.new) }
    ensures tally { OnOk result (D.tally disk.new ≡ after_stable 1 (D.tally disk.old)) }
    ensures fuse { D.fuse disk.new ≡ burnt 2 (D.fuse disk.old) }
    ensures foretold { Foretold 2 (D.fuse disk.old) (is_ok result) }
{
    stable(disk, slot.gate(), &[OPEN])
}

/// Rewrites one slot with these octets behind its gate. At each moment a crash leaves the slot as it was, closed, or open
/// with the new octets, and everything else as it was.
pub fn write_slot<D: Disk>(
    disk: &mut D,
    slot: Slot,
    is_open: bool,
    octets: &[u8],
) -> Result<(), Failed>
    requires size { IMAGE_SIZE ≤ (D.tally disk.old).size }
    requires row { slot.row < CAPACITY }
    requires behind { length octets.now ≡ 63 }
    requires calls { (D.tally disk.old).writes + 6 ≤ 16 }
    requires room { (D.tally disk.old).octets + 65 ≤ 262400 }
    requires settled { (D.tally disk.old).unsettled ≡ false }
    requires quiet { IsQuiet (D.tally disk.old) (D.image disk.old) (D.may_leave disk.old) }
    requires tells { TellsOpen format_1 slot.row slot.odd is_open (D.image disk.old) }
    ensures since { GrowsBy (Rewrites format_1 slot.row slot.odd octets.now) (D.image disk.old) (D.left disk.old) (D.left disk.new) }
    ensures written { OnOk result (Becomes (Rewritten format_1 slot.row slot.odd octets.now) (D.image disk.old) (D.image disk.new)) }
    ensures steps { Steps 6 result (seen D.Disk disk.old) (seen D.Disk disk.new) }
    ensures tally { OnOk result (D.tally disk.new ≡ after_rewrite is_open (D.tally disk.old)) }
    ensures fuse { D.fuse disk.new ≡ burnt (rewrite_calls is_open) (D.fuse disk.old) }
    ensures foretold { Foretold (rewrite_calls is_open) (D.fuse disk.old) (is_ok result) }
{
    let Ok(()) = close(disk, slot, is_open) else {
        return Err(Failed);
    };
    let Ok(()) = fill(disk, slot, octets) else {
        return Err(Failed);
    };
    open(disk, slot)
}
