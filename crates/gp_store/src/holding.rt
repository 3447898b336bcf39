//! One row is read from the disk.
ghost use Rattle.std.specs.Prelude.{◌≡◌, ◌<◌, ◌≤◌, ℕ, true, false, List, Ok, Some, None, OnOk, OnErr, IfOk, IfSome, IsSome};
ghost use Rattle.gp_base.specs.Outside.{one_more};
ghost use Rattle.gp_disk.specs.Fuse.{burnt, Foretold};
ghost use Rattle.gp_store.specs.Slot.{Shows};
ghost use Rattle.gp_store.specs.Slots.{IsFormed, newer};
ghost use Rattle.gp_store.specs.Reading.{slot_of};
ghost use Rattle.gp_store.specs.Recovery.{Told};
ghost use Rattle.gp_store.specs.Untouched.{OnlyReads, IsKeptAsIs, GoesOn};
ghost use Rattle.gp_rows.specs.Rows.{CAPACITY};
ghost use Rattle.gp_store.specs.Held.{IsRowOf, held_calls};

use crate::codec::{formed, generation_of};
use crate::layout::{ROWS, SIZE};
use crate::octets::ReadSlot;
use crate::rows::read_pair;
use gp_base::Failed;
use gp_disk::Disk;
use gp_rows::Row;

// The values of the slot with the greater generation, where one is open and well formed.
fn newest_of(even: &ReadSlot, odd: &ReadSlot) -> Option<Row>
    ensures none { newer (slot_of even.now.is_open even.now.octets.items) (slot_of odd.now.is_open odd.now.octets.items) ≡ None → result ≡ None }
    ensures some { (octets : List ℕ) → newer (slot_of even.now.is_open even.now.octets.items) (slot_of odd.now.is_open odd.now.octets.items) ≡ Some octets → IsFormed octets → IfSome result (Shows octets 0) }
    ensures there { (octets : List ℕ) → newer (slot_of even.now.is_open even.now.octets.items) (slot_of odd.now.is_open odd.now.octets.items) ≡ Some octets → IsFormed octets → IsSome result }
{
    match (even.is_open, odd.is_open) {
        (false, false) => None,
        (true, false) => formed(&even.octets),
        (false, true) => formed(&odd.octets),
        (true, true) => {
            if generation_of(&even.octets) < generation_of(&odd.octets) {
                formed(&odd.octets)
            } else {
                formed(&even.octets)
            }
        }
    }
}

/// Reads row `at` of the rows that the disk holds, by at most two calls; None where it holds fewer. Where what a read gives
/// holds no rows, the answer says nothing.
///
/// Nothing is written, and no memory is taken. Failed comes where a call of the disk has failed; for `at` of 1,024 or more
/// there is none.
#[tactic(auto, unfolding(crate::specs::Held::held_calls))]
pub fn held<D: Disk>(disk: &mut D, at: u16) -> Result<Option<Row>, Failed>
    ensures row { IfOk result (λ row. Told (D.image disk.old) (λ d. IsRowOf d at row)) }
    ensures kept { IsKeptAsIs (D.image disk.old) (D.image disk.new) (D.may_leave disk.old) (D.may_leave disk.new) (D.left disk.old) (D.left disk.new) }
    ensures beyond { CAPACITY ≤ at → (result ≡ Ok None) × (disk.new ≡ disk.old) }
    ensures reads { OnlyReads (D.tally disk.old) (D.tally disk.new) }
    ensures good { OnOk result (D.faults disk.new ≡ D.faults disk.old) }
    ensures failed { OnErr result (D.faults disk.new ≡ one_more (D.faults disk.old)) }
    ensures fuse { OnOk result (GoesOn held_calls (D.fuse disk.old) (D.fuse disk.new)) }
    ensures fuse_failed { OnErr result (D.fuse disk.new ≡ burnt held_calls (D.fuse disk.old)) }
    ensures not_gone { OnErr result (Foretold held_calls (D.fuse disk.old) false) }
{
    if at >= ROWS {
        return Ok(None);
    }
    if disk.size() < SIZE {
        return Ok(None);
    }
    let (even, odd) = read_pair(disk, at)?;
    Ok(newest_of(&even, &odd))
}
