//! The slots of a row are read from the disk.
ghost use Rattle.std.specs.Prelude.{◌≡◌, ◌<◌, ◌≤◌, ℕ, List, length, Some, OnOk, OnErr, IfOk, is_ok};
ghost use Rattle.gp_base.specs.Outside.{one_more};
ghost use Rattle.gp_disk.specs.Disk.{part};
ghost use Rattle.gp_disk.specs.Fuse.{burnt, Foretold};
ghost use Rattle.gp_store.specs.Image.{IMAGE_SIZE, slots, format_1};
ghost use Rattle.gp_store.specs.Reading.{slot_of};
ghost use Rattle.gp_store.specs.Untouched.{OnlyReads, IsKeptAsIs};
ghost use Rattle.gp_rows.specs.Rows.{CAPACITY};

use crate::codec::append;
use crate::layout::{OPEN, Slot};
use crate::octets::ReadSlot;
use arrayvec::ArrayVec;
use gp_base::Failed;
use gp_disk::Disk;

// The octets of a slot behind its gate.
fn behind(octets: &[u8]) -> ArrayVec<u8, 63>
    requires { length octets.now ≡ 64 }
    ensures octets { result.items ≡ part 1 63 octets.now }
    ensures size { length result.items ≡ 63 }
{
    let mut behind = ArrayVec::new();
    append(&mut behind, &octets[1..64]);
    behind
}

/// Reads one slot, by one call.
pub fn read_slot<D: Disk>(disk: &mut D, slot: Slot) -> Result<ReadSlot, Failed>
    requires size { IMAGE_SIZE ≤ (D.tally disk.old).size }
    requires row { slot.row < CAPACITY }
    ensures slot { IfOk result (λ s. (d : List ℕ) → D.image disk.old ≡ Some d → slots format_1 d slot.row slot.odd ≡ slot_of s.is_open s.octets.items) }
    ensures kept { IsKeptAsIs (D.image disk.old) (D.image disk.new) (D.may_leave disk.old) (D.may_leave disk.new) (D.left disk.old) (D.left disk.new) }
    ensures reads { OnlyReads (D.tally disk.old) (D.tally disk.new) }
    ensures good { OnOk result (D.faults disk.new ≡ D.faults disk.old) }
    ensures failed { OnErr result (D.faults disk.new ≡ one_more (D.faults disk.old)) }
    ensures fuse { D.fuse disk.new ≡ burnt 1 (D.fuse disk.old) }
    ensures foretold { Foretold 1 (D.fuse disk.old) (is_ok result) }
{
    let mut octets = [0; 64];
    disk.read(slot.gate(), &mut octets)?;
    Ok(ReadSlot {
        is_open: octets[0] == OPEN,
        octets: behind(&octets),
    })
}
