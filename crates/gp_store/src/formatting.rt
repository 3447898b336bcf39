//! A disk is formatted.
ghost use Rattle.std.specs.Prelude.{◌≡◌, ◌↔◌, ◌+◌, ◌<◌, ◌≤◌, ℕ, true, false, List, [], Ok, Err, OnOk, OnErr, IfOk, IfErr, IsTrue, is_ok, is_some};
ghost use Rattle.gp_base.specs.Outside.{one_more};
ghost use Rattle.gp_disk.specs.Disk.{IsQuiet, SameRun};
ghost use Rattle.gp_disk.specs.Fuse.{burnt, Foretold};
ghost use Rattle.gp_store.specs.declared.fault.StoreFault.TheVariants.{DiskFault, AlreadyFormatted};
ghost use Rattle.gp_store.specs.Image.{IMAGE_SIZE, HoldsRows};
ghost use Rattle.gp_store.specs.Recovery.{Told};
ghost use Rattle.gp_store.specs.Untouched.{OnlyReads, IsKeptAsIs};
ghost use Rattle.gp_store.specs.Writes.{GrowsBy, Becomes, after_stable};
ghost use Rattle.gp_store.specs.FormatWrites.{SameEnds, Cleared, Named, SameBehind, Opened};
ghost use Rattle.gp_store.specs.Formatting.{HasOpenGate, IsBlank, LeavesNoRows, KeepsRest, Formatted, RefusedToFormat};

use crate::fault::StoreFault;
use crate::layout::{OPEN, SIZE};
use crate::recovery::settle;
use gp_base::Failed;
use gp_disk::{Disk, stable, stable_zero};

// Octets 1 to 63 of the header: the name, the number of the format, and zeros.
const NAME: [u8; 63] = [
    b'G', b'P', b'S', b'I', b'N', b'K', 1, 0, 0, 0, 0, 0, 0, 0, 0, 0, 0, 0, 0, 0, 0, 0, 0, 0, 0, 0,
    0, 0, 0, 0, 0, 0, 0, 0, 0, 0, 0, 0, 0, 0, 0, 0, 0, 0, 0, 0, 0, 0, 0, 0, 0, 0, 0, 0, 0, 0, 0, 0,
    0, 0, 0, 0, 0,
];

// Reads whether the header's gate is open.
fn read_gate<D: Disk>(disk: &mut D) -> Result<bool, Failed>
    requires size { IMAGE_SIZE ≤ (D.tally disk.old).size }
    ensures gate { IfOk result (λ is_open. Told (D.image disk.old) (λ d. IsTrue is_open ↔ HasOpenGate d)) }
    ensures kept { IsKeptAsIs (D.image disk.old) (D.image disk.new) (D.may_leave disk.old) (D.may_leave disk.new) (D.left disk.old) (D.left disk.new) }
    ensures reads { OnlyReads (D.tally disk.old) (D.tally disk.new) }
    ensures good { OnOk result (D.faults disk.new ≡ D.faults disk.old) }
    ensures failed { OnErr result (D.faults disk.new ≡ one_more (D.faults disk.old)) }
    ensures fuse { D.fuse disk.new ≡ burnt 1 (D.fuse disk.old) }
    ensures foretold { Foretold 1 (D.fuse disk.old) (is_ok result) }
{
    let mut gate = [0];
    disk.read(0, &mut gate)?;
    Ok(gate[0] == OPEN)
}

// Zeroes so many octets behind the header's gate, up to the end of the image at most.
fn clear<D: Disk>(disk: &mut D, count: u64) -> Result<(), Failed>
    requires within { count + 1 ≤ IMAGE_SIZE }
    requires range { count + 1 ≤ (D.tally disk.old).size }
    requires calls { (D.tally disk.old).writes + 2 ≤ 16 }
    requires settled { (D.tally disk.old).unsettled ≡ false }
    requires quiet { IsQuiet (D.tally disk.old) (D.image disk.old) (D.may_leave disk.old) }
    ensures since { GrowsBy SameEnds (D.image disk.old) (D.left disk.old) (D.left disk.new) }
    ensures written { OnOk result (Becomes (Cleared (count + 1)) (D.image disk.old) (D.image disk.new)) }
    ensures quiet { OnOk result (IsQuiet (D.tally disk.new) (D.image disk.new) (D.may_leave disk.new)) }
    ensures told { is_some (D.image disk.new) ≡ is_some (D.image disk.old) }
    ensures run { SameRun (D.tally disk.old) (D.tally disk.new) }
    ensures tally { OnOk result (D.tally disk.new ≡ after_stable 0 (D.tally disk.old)) }
    ensures good { OnOk result (D.faults disk.new ≡ D.faults disk.old) }
    ensures failed { OnErr result (D.faults disk.new ≡ one_more (D.faults disk.old)) }
    ensures fuse { D.fuse disk.new ≡ burnt 2 (D.fuse disk.old) }
    ensures foretold { Foretold 2 (D.fuse disk.old) (is_ok result) }
{
    stable_zero(disk, 1, count)
}

// Writes the header behind its gate.
fn name<D: Disk>(disk: &mut D) -> Result<(), Failed>
    requires size { IMAGE_SIZE ≤ (D.tally disk.old).size }
    requires calls { (D.tally disk.old).writes + 2 ≤ 16 }
    requires room { (D.tally disk.old).octets + 63 ≤ 262400 }
    requires settled { (D.tally disk.old).unsettled ≡ false }
    requires quiet { IsQuiet (D.tally disk.old) (D.image disk.old) (D.may_leave disk.old) }
    ensures since { GrowsBy SameEnds (D.image disk.old) (D.left disk.old) (D.left disk.new) }
    ensures written { OnOk result (Becomes Named (D.image disk.old) (D.image disk.new)) }
    ensures quiet { OnOk result (IsQuiet (D.tally disk.new) (D.image disk.new) (D.may_leave disk.new)) }
    ensures told { is_some (D.image disk.new) ≡ is_some (D.image disk.old) }
    ensures run { SameRun (D.tally disk.old) (D.tally disk.new) }
    ensures tally { OnOk result (D.tally disk.new ≡ after_stable 63 (D.tally disk.old)) }
    ensures good { OnOk result (D.faults disk.new ≡ D.faults disk.old) }
    ensures failed { OnErr result (D.faults disk.new ≡ one_more (D.faults disk.old)) }
    ensures fuse { D.fuse disk.new ≡ burnt 2 (D.fuse disk.old) }
    ensures foretold { Foretold 2 (D.fuse disk.old) (is_ok result) }
{
    stable(disk, 1, &NAME)
}

// Opens the header's gate.
fn open<D: Disk>(disk: &mut D) -> Result<(), Failed>
    requires size { IMAGE_SIZE ≤ (D.tally disk.old).size }
    requires calls { (D.tally disk.old).writes + 2 ≤ 16 }
    requires room { (D.tally disk.old).octets + 1 ≤ 262400 }
    requires settled { (D.tally disk.old).unsettled ≡ false }
    requires quiet { IsQuiet (D.tally disk.old) (D.image disk.old) (D.may_leave disk.old) }
    ensures since { GrowsBy SameBehind (D.image disk.old) (D.left disk.old) (D.left disk.new) }
    ensures written { OnOk result (Becomes Opened (D.image disk.old) (D.image disk.new)) }
    ensures quiet { OnOk result (IsQuiet (D.tally disk.new) (D.image disk.new) (D.may_leave disk.new)) }
    ensures told { is_some (D.image disk.new) ≡ is_some (D.image disk.old) }
    ensures run { SameRun (D.tally disk.old) (D.tally disk.new) }
    ensures tally { OnOk result (D.tally disk.new ≡ after_stable 1 (D.tally disk.old)) }
    ensures good { OnOk result (D.faults disk.new ≡ D.faults disk.old) }
    ensures failed { OnErr result (D.faults disk.new ≡ one_more (D.faults disk.old)) }
    ensures fuse { D.fuse disk.new ≡ burnt 2 (D.fuse disk.old) }
    ensures foretold { Foretold 2 (D.fuse disk.old) (is_ok result) }
{
    stable(disk, 0, &[OPEN])
}

// Writes an empty image behind a header whose gate is closed, and opens that gate last.
fn write_empty<D: Disk>(disk: &mut D) -> Result<(), Failed>
    requires size { IMAGE_SIZE ≤ (D.tally disk.old).size }
    requires writes { (D.tally disk.old).writes ≡ 1 }
    requires octets { (D.tally disk.old).octets ≡ 0 }
    requires settled { (D.tally disk.old).unsettled ≡ false }
    requires quiet { IsQuiet (D.tally disk.old) (D.image disk.old) (D.may_leave disk.old) }
    requires closed { Told (D.image disk.old) (λ d. HasOpenGate d → ⊥) }
    ensures since { (c : List ℕ) → D.left disk.new c → LeavesNoRows (D.left disk.old) c }
    ensures rest { (c : List ℕ) → D.left disk.new c → KeepsRest (D.left disk.old) c }
    ensures written { OnOk result (Told (D.image disk.new) (λ d. HoldsRows d [])) }
    ensures blank { OnOk result (Told (D.image disk.new) IsBlank) }
    ensures quiet { OnOk result (IsQuiet (D.tally disk.new) (D.image disk.new) (D.may_leave disk.new)) }
    ensures told { is_some (D.image disk.new) ≡ is_some (D.image disk.old) }
    ensures run { SameRun (D.tally disk.old) (D.tally disk.new) }
    ensures writes { OnOk result ((D.tally disk.new).writes ≡ 7) }
    ensures good { OnOk result (D.faults disk.new ≡ D.faults disk.old) }
    ensures failed { OnErr result (D.faults disk.new ≡ one_more (D.faults disk.old)) }
    ensures fuse { D.fuse disk.new ≡ burnt 6 (D.fuse disk.old) }
    ensures foretold { Foretold 6 (D.fuse disk.old) (is_ok result) }
{
    clear(disk, SIZE - 1)?;
    name(disk)?;
    open(disk)
}

/// Writes an empty image, in one run of calls.
///
/// A disk of fewer than 204,800 octets is DiskShort, and one whose octet 0, the gate of its header, is A5 and so open,
/// whatever stands behind it, is AlreadyFormatted. Nothing is written there. DiskFault comes behind DiskShort, where the
/// disk has failed.
///
/// A crash during the call leaves what it might have left before, or a disk that isn't formatted, or the empty image:
/// that gate is opened last. Where a formatting that was cut has left it closed, `format` writes the image anew. The octets
/// behind the image, from octet 204,800 on, stay as they were.
#[tactic(auto, unfolding(crate::specs::Formatting::format_calls))]
pub fn format<D: Disk>(disk: &mut D) -> Result<(), StoreFault>
    ensures formatted { OnOk result (Formatted D.Disk disk.old disk.new) }
    ensures refused { IfErr result (λ fault. RefusedToFormat D.Disk fault disk.old disk.new) }
{
    if disk.size() < SIZE {
        return Err(StoreFault::DiskShort);
    }
    match settle(disk) {
        Ok(()) => {}
        Err(Failed) => return Err(StoreFault::DiskFault),
    }
    match read_gate(disk) {
        Ok(false) => {}
        Ok(true) => return Err(StoreFault::AlreadyFormatted),
        Err(Failed) => return Err(StoreFault::DiskFault),
    }
    match write_empty(disk) {
        Ok(()) => Ok(()),
        Err(Failed) => Err(StoreFault::DiskFault),
    }
}
