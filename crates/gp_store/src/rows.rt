//! All the rows are read from the disk.
ghost use Rattle.std.specs.Prelude.{◌≡◌, ◌≢◌, ◌+◌, ◌<◌, ◌≤◌, ℕ, Bool, true, false, List, Some, OnOk, OnErr, IfOk, MatchResult, Err, is_ok};
ghost use Rattle.gp_base.specs.Outside.{one_more};
ghost use Rattle.gp_disk.specs.Fuse.{burnt, Foretold};
ghost use Rattle.gp_store.specs.declared.rows.RowFault.TheVariants.{Failing, Ill};
ghost use Rattle.gp_store.specs.Image.{IMAGE_SIZE, slots, format_1};
ghost use Rattle.gp_store.specs.Reading.{FoundOf, Reads, EndsIll, slot_of};
ghost use Rattle.gp_store.specs.Untouched.{OnlyReads, IsKeptAsIs, GoesOn};
ghost use Rattle.gp_rows.specs.Rows.{CAPACITY};

use crate::found::Found;
use crate::layout::{ROWS, Slot};
use crate::octets::ReadSlot;
use crate::reading::take_row;
use crate::slots::read_slot;
use gp_base::Failed;
use gp_disk::Disk;

/// Why the rows aren't read.
#[derive(Clone, Copy, Debug, PartialEq, Eq)]
pub enum RowFault {
    /// The disk has failed.
    Failing,
    /// This is the smallest ill slot.
    Ill { row: u16, odd: bool },
}

// Reads the two slots of a row, by two calls.
pub fn read_pair<D: Disk>(disk: &mut D, at: u16) -> Result<(ReadSlot, ReadSlot), Failed>
    requires size { IMAGE_SIZE ≤ (D.tally disk.old).size }
    requires row { at < CAPACITY }
    ensures even { IfOk result (λ p. (d : List ℕ) → D.image disk.old ≡ Some d → slots format_1 d at false ≡ slot_of p.0.is_open p.0.octets.items) }
    ensures odd { IfOk result (λ p. (d : List ℕ) → D.image disk.old ≡ Some d → slots format_1 d at true ≡ slot_of p.1.is_open p.1.octets.items) }
    ensures kept { IsKeptAsIs (D.image disk.old) (D.image disk.new) (D.may_leave disk.old) (D.may_leave disk.new) (D.left disk.old) (D.left disk.new) }
    ensures reads { OnlyReads (D.tally disk.old) (D.tally disk.new) }
    ensures good { OnOk result (D.faults disk.new ≡ D.faults disk.old) }
    ensures failed { OnErr result (D.faults disk.new ≡ one_more (D.faults disk.old)) }
    ensures fuse { D.fuse disk.new ≡ burnt 2 (D.fuse disk.old) }
    ensures foretold { Foretold 2 (D.fuse disk.old) (is_ok result) }
{
    let even = read_slot(
        disk,
        Slot {
            row: at,
            odd: false,
        },
    )?;
    let odd = read_slot(disk, Slot { row: at, odd: true })?;
    Ok((even, odd))
}

// Reads one row more.
fn read_row<D: Disk>(disk: &mut D, at: u16, found: &mut Found) -> Result<(), RowFault>
    requires size { IMAGE_SIZE ≤ (D.tally disk.old).size }
    requires row { at < CAPACITY }
    requires found { FoundOf found.old }
    ensures found { FoundOf found.new }
    ensures rows { (d : List ℕ) → D.image disk.old ≡ Some d → Reads (slots format_1 d) at found.old
        → MatchResult result (λ _. Reads (slots format_1 d) (at + 1) found.new) (λ fault. (row : ℕ) (odd : Bool) → fault ≡ Ill row odd → (row ≡ at) × EndsIll (slots format_1 d) at odd) }
    ensures kept { IsKeptAsIs (D.image disk.old) (D.image disk.new) (D.may_leave disk.old) (D.may_leave disk.new) (D.left disk.old) (D.left disk.new) }
    ensures reads { OnlyReads (D.tally disk.old) (D.tally disk.new) }
    ensures good { result ≢ Err Failing → D.faults disk.new ≡ D.faults disk.old }
    ensures failed { result ≡ Err Failing → D.faults disk.new ≡ one_more (D.faults disk.old) }
    ensures fuse { D.fuse disk.new ≡ burnt 2 (D.fuse disk.old) }
    ensures gone { result ≢ Err Failing → Foretold 2 (D.fuse disk.old) true }
    ensures not_gone { result ≡ Err Failing → Foretold 2 (D.fuse disk.old) false }
{
    let (even, odd) = match read_pair(disk, at) {
        Ok(pair) => pair,
        Err(Failed) => return Err(RowFault::Failing),
    };
    match take_row(found, at, &even, &odd) {
        Some(odd) => Err(RowFault::Ill { row: at, odd }),
        None => Ok(()),
    }
}

/// Reads all the rows, by 2,048 calls where none fails.
pub fn read_rows<D: Disk>(disk: &mut D, found: &mut Found) -> Result<(), RowFault>
    requires size { IMAGE_SIZE ≤ (D.tally disk.old).size }
    requires found { FoundOf found.old }
    ensures found { FoundOf found.new }
    ensures rows { (d : List ℕ) → D.image disk.old ≡ Some d → Reads (slots format_1 d) 0 found.old
        → MatchResult result (λ _. Reads (slots format_1 d) CAPACITY found.new) (λ fault. (row : ℕ) (odd : Bool) → fault ≡ Ill row odd → (row < CAPACITY) × EndsIll (slots format_1 d) row odd) }
    ensures kept { IsKeptAsIs (D.image disk.old) (D.image disk.new) (D.may_leave disk.old) (D.may_leave disk.new) (D.left disk.old) (D.left disk.new) }
    ensures reads { OnlyReads (D.tally disk.old) (D.tally disk.new) }
    ensures good { result ≢ Err Failing → D.faults disk.new ≡ D.faults disk.old }
    ensures failed { result ≡ Err Failing → D.faults disk.new ≡ one_more (D.faults disk.old) }
    ensures fuse { OnOk result (D.fuse disk.new ≡ burnt 2048 (D.fuse disk.old)) }
    ensures fuse_failed { result ≡ Err Failing → D.fuse disk.new ≡ burnt 2048 (D.fuse disk.old) }
    ensures fuse_ill { result ≢ Err Failing → GoesOn 2048 (D.fuse disk.old) (D.fuse disk.new) }
    ensures gone { OnOk result (Foretold 2048 (D.fuse disk.old) true) }
    ensures not_gone { result ≡ Err Failing → Foretold 2048 (D.fuse disk.old) false }
{
    for at in 0..ROWS {
        match read_row(disk, at, found) {
            Ok(()) => {}
            Err(fault) => return Err(fault),
        }
    }
    Ok(())
}
