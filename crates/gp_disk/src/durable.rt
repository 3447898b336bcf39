//! Writes that are certain once they have succeeded.

ghost use Rattle.std.specs.Prelude.{◌≡◌, ◌+◌, ◌≤◌, false, length, replicate};
ghost use Rattle.gp_disk.specs.Disk.{IsQuiet};
ghost use Rattle.gp_disk.specs.Durable.{MakesCertain, seen};

use crate::Disk;
use gp_base::Failed;

/// Writes octets from a place on and makes them certain, by one `write_at` and, where that succeeded, one `sync`.
///
/// Nothing may be pending, and what a read gives has to be the only image that a crash now may leave. So it is
/// after Ok. Whatever the answer, a crash leaves octets other than those of before in the range alone. `Failed` comes
/// only where the count of faults rises in this call; after a failed write no `sync` is made.
pub fn stable<D: Disk>(disk: &mut D, at: u64, octets: &[u8]) -> Result<(), Failed>
    requires range { at + length octets.now ≤ (D.tally disk.old).size }
    requires calls { (D.tally disk.old).writes + 2 ≤ 16 }
    requires room { (D.tally disk.old).octets + length octets.now ≤ 262400 }
    requires settled { (D.tally disk.old).unsettled ≡ false }
    requires quiet { IsQuiet (D.tally disk.old) (D.image disk.old) (D.may_leave disk.old) }
    ensures { MakesCertain at (length octets.now) octets.now (length octets.now) result (seen D.Disk disk.old) (seen D.Disk disk.new) }
{
    disk.write_at(at, octets)?;
    disk.sync()
}

/// Writes so many zeros from a place on and makes them certain, as `stable` does, by one `zero` and, where that
/// succeeded, one `sync`. `Failed` comes only where the count of faults rises in this call.
pub fn stable_zero<D: Disk>(disk: &mut D, at: u64, count: u64) -> Result<(), Failed>
    requires range { at + count ≤ (D.tally disk.old).size }
    requires calls { (D.tally disk.old).writes + 2 ≤ 16 }
    requires settled { (D.tally disk.old).unsettled ≡ false }
    requires quiet { IsQuiet (D.tally disk.old) (D.image disk.old) (D.may_leave disk.old) }
    ensures { MakesCertain at count (replicate count 0) 0 result (seen D.Disk disk.old) (seen D.Disk disk.new) }
{
    disk.zero(at, count)?;
    disk.sync()
}
