//! A disk is read after a restart.
ghost use Rattle.std.specs.Prelude.{◌≡◌, ◌≢◌, ◌↔◌, ◌<◌, ◌≤◌, ℕ, true, false, List, Err, OnOk, OnErr, IfOk, IsTrue, IfErr, is_ok};
ghost use Rattle.gp_base.specs.Outside.{one_more};
ghost use Rattle.gp_disk.specs.Disk.{IsQuiet};
ghost use Rattle.gp_disk.specs.Fuse.{lit, burnt, Foretold};
ghost use Rattle.gp_store.specs.declared.fault.StoreFault.TheVariants.{DiskFault};
ghost use Rattle.gp_store.specs.Image.{IMAGE_SIZE, slots, format_1, IsFormatted};
ghost use Rattle.gp_store.specs.Reading.{FoundOf, Reads};
ghost use Rattle.gp_store.specs.Recovery.{Told, Refuses, begun, WritesNothing};
ghost use Rattle.gp_store.specs.Untouched.{OnlyReads, IsKeptAsIs, GoesOn};
ghost use Rattle.gp_rows.specs.Rows.{CAPACITY};

use crate::fault::StoreFault;
use crate::found::Found;
use crate::layout::{OPEN, Slot};
use crate::rows::{RowFault, read_rows};
use gp_base::{Failed, NoMemory};
use gp_disk::Disk;
use gp_rows::Table;
use std::alloc::Global;

/// The first octets of a formatted disk: an open gate, a name, and the number of the format.
pub const HEADER: [u8; 8] = [OPEN, b'G', b'P', b'S', b'I', b'N', b'K', 1];

/// Memory for 1,024 rows.
pub fn room(alloc: Global) -> Result<Found, NoMemory>
    ensures found { IfOk result FoundOf }
    ensures reads { IfOk result (λ found. (d : List ℕ) → Reads (slots format_1 d) 0 found) }
{
    let Ok(table) = Table::new(alloc) else {
        return Err(NoMemory);
    };
    let Ok(stale) = Vec::with_capacity(alloc, 1024) else {
        return Err(NoMemory);
    };
    let Ok(older) = Vec::with_capacity(alloc, 1024) else {
        return Err(NoMemory);
    };
    Ok(Found {
        table,
        stale,
        older,
        last: 0,
    })
}

// Reads whether the disk is formatted, by one call.
fn read_header<D: Disk>(disk: &mut D) -> Result<bool, Failed>
    requires size { IMAGE_SIZE ≤ (D.tally disk.old).size }
    ensures header { IfOk result (λ is_formatted. Told (D.image disk.old) (λ d. IsTrue is_formatted ↔ IsFormatted d)) }
    ensures kept { IsKeptAsIs (D.image disk.old) (D.image disk.new) (D.may_leave disk.old) (D.may_leave disk.new) (D.left disk.old) (D.left disk.new) }
    ensures reads { OnlyReads (D.tally disk.old) (D.tally disk.new) }
    ensures good { OnOk result (D.faults disk.new ≡ D.faults disk.old) }
    ensures failed { OnErr result (D.faults disk.new ≡ one_more (D.faults disk.old)) }
    ensures fuse { D.fuse disk.new ≡ burnt 1 (D.fuse disk.old) }
    ensures foretold { Foretold 1 (D.fuse disk.old) (is_ok result) }
{
    let mut header = [0; 8];
    disk.read(0, &mut header)?;
    Ok(header == HEADER)
}

// Begins a run of calls and makes certain what is pending, by one call.
pub fn settle<D: Disk>(disk: &mut D) -> Result<(), Failed>
    ensures image { D.image disk.new ≡ D.image disk.old }
    ensures since { (c : List ℕ) → D.left disk.new c → D.may_leave disk.old c }
    ensures quiet { OnOk result (IsQuiet (D.tally disk.new) (D.image disk.new) (D.may_leave disk.new)) }
    ensures settled { OnOk result ((D.tally disk.new).unsettled ≡ false) }
    ensures counts { WritesNothing (D.tally disk.old) (D.tally disk.new) }
    ensures good { OnOk result (D.faults disk.new ≡ D.faults disk.old) }
    ensures failed { OnErr result (D.faults disk.new ≡ one_more (D.faults disk.old)) }
    ensures fuse { D.fuse disk.new ≡ burnt 1 (lit (D.fuse disk.old)) }
    ensures foretold { Foretold 1 (lit (D.fuse disk.old)) (is_ok result) }
{
    disk.begin();
    disk.sync()
}

/// Reads the rows of a disk that is large enough, in a run of 2,050 calls where none fails.
pub fn read_disk<D: Disk>(disk: &mut D, found: &mut Found) -> Result<(), StoreFault>
    requires size { IMAGE_SIZE ≤ (D.tally disk.old).size }
    requires found { FoundOf found.old }
    requires reads { (d : List ℕ) → Reads (slots format_1 d) 0 found.old }
    ensures found { FoundOf found.new }
    ensures rows { OnOk result (Told (D.image disk.old) (λ d. IsFormatted d × Reads (slots format_1 d) CAPACITY found.new)) }
    ensures refuses { IfErr result (λ fault. Refuses fault (D.tally disk.old).size (D.image disk.old)) }
    ensures begun { IfErr result (λ fault. begun fault ≡ true) }
    ensures image { D.image disk.new ≡ D.image disk.old }
    ensures since { (c : List ℕ) → D.left disk.new c → D.may_leave disk.old c }
    ensures quiet { OnOk result (IsQuiet (D.tally disk.new) (D.image disk.new) (D.may_leave disk.new)) }
    ensures counts { WritesNothing (D.tally disk.old) (D.tally disk.new) }
    ensures good { result ≢ Err DiskFault → D.faults disk.new ≡ D.faults disk.old }
    ensures failed { result ≡ Err DiskFault → D.faults disk.new ≡ one_more (D.faults disk.old) }
    ensures fuse { OnOk result (D.fuse disk.new ≡ burnt 2050 (lit (D.fuse disk.old))) }
    ensures fuse_failed { result ≡ Err DiskFault → D.fuse disk.new ≡ burnt 2050 (lit (D.fuse disk.old)) }
    ensures fuse_refused { result ≢ Err DiskFault → GoesOn 2050 (lit (D.fuse disk.old)) (D.fuse disk.new) }
    ensures gone { OnOk result (Foretold 2050 (lit (D.fuse disk.old)) true) }
    ensures not_gone { result ≡ Err DiskFault → Foretold 2050 (lit (D.fuse disk.old)) false }
{
    match settle(disk) {
        Ok(()) => {}
        Err(Failed) => return Err(StoreFault::DiskFault),
    }
    match read_header(disk) {
        Ok(true) => {}
        Ok(false) => return Err(StoreFault::NotFormatted),
        Err(Failed) => return Err(StoreFault::DiskFault),
    }
    match read_rows(disk, found) {
        Ok(()) => Ok(()),
        Err(RowFault::Failing) => Err(StoreFault::DiskFault),
        Err(RowFault::Ill { row, odd }) => {
            let slot = Slot { row, odd };
            Err(StoreFault::SlotForm {
                slot: slot.number(),
            })
        }
    }
}
