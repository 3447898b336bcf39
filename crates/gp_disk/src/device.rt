//! A disk as the store sees it.

ghost use Rattle.std.specs.Prelude.{◌≡◌, ◌+◌, ◌^◌, ◌<◌, ◌≤◌, ℕ, false, List, length, replicate, Option, Some};
ghost use Rattle.gp_disk.specs.Calls.{Begins, Reads, Writes, Syncs};
ghost use Rattle.gp_disk.specs.Disk.{Tally, moment};
ghost use Rattle.gp_disk.specs.Fuse.{Fuse};

use gp_base::Failed;

/// A disk of a fixed size, on which a write is kept for certain only once a `sync` has succeeded after it.
///
/// Between two syncs each written range may hold any octets after a crash, and octets outside the written
/// ranges stay. After a good `sync` a crash leaves what a read gives. A failed write leaves its range pending,
/// and a failed sync leaves all pending ranges pending.
///
/// A caller makes at most 16 calls of `write_at`, `zero` and `sync` after a `begin`, whose `write_at` calls have
/// at most 262,400 octets together, and writes only where nothing was pending at the last `begin` or a `sync`
/// has succeeded since.
pub trait Disk {
    /// What a read gives, where the disk tells it.
    ghost image: { Self → Option (List ℕ) };

    /// What a crash now may leave, where the disk tells it.
    ghost may_leave: { Self → List ℕ → Type 0 };

    /// What a crash at some moment since the last `begin` might have left, where the disk tells it.
    ghost left: { Self → List ℕ → Type 0 };

    /// The size and the counts of calls.
    ghost tally: { Self → Tally };

    /// How many calls have failed, up to the greatest 64-bit number, at which it stays.
    ghost faults: { Self → ℕ };

    /// The failures to come, where the disk tells them.
    ghost fuse: { Self → Fuse };

    /// How many octets the disk has. No call changes it.
    fn size(&self) -> u64
        ensures { result ≡ (tally self.now).size };

    /// Begins a run of calls. It can't fail.
    fn begin(&mut self)
        ensures { Begins (moment image may_leave left tally faults fuse self.old) (moment image may_leave left tally faults fuse self.new) };

    /// Reads the octets from a place on, as many as the buffer has. `Failed` comes only where the count of faults rises
    /// in this call, and then the buffer is as it was.
    fn read(&mut self, at: u64, into: &mut [u8]) -> Result<(), Failed>
        requires range { at + length into.old ≤ (tally self.old).size }
        ensures { Reads at into.old into.new result
            (moment image may_leave left tally faults fuse self.old) (moment image may_leave left tally faults fuse self.new) };

    /// Writes octets from a place on. `Failed` comes only where the count of faults rises in this call, and then a read
    /// may give any octets in the range.
    fn write_at(&mut self, at: u64, octets: &[u8]) -> Result<(), Failed>
        requires range { at + length octets.now ≤ (tally self.old).size }
        requires calls { (tally self.old).writes < 16 }
        requires room { (tally self.old).octets + length octets.now ≤ 262400 }
        requires settled { (tally self.old).unsettled ≡ false }
        ensures { Writes at (length octets.now) octets.now (length octets.now) result
            (moment image may_leave left tally faults fuse self.old) (moment image may_leave left tally faults fuse self.new) };

    /// Writes so many zeros from a place on. `Failed` comes only where the count of faults rises in this call, and then a
    /// read may give any octets in the range.
    fn zero(&mut self, at: u64, count: u64) -> Result<(), Failed>
        requires range { at + count ≤ (tally self.old).size }
        requires calls { (tally self.old).writes < 16 }
        requires settled { (tally self.old).unsettled ≡ false }
        ensures { Writes at count (replicate count 0) 0 result
            (moment image may_leave left tally faults fuse self.old) (moment image may_leave left tally faults fuse self.new) };

    /// Makes what was written certain. `Failed` comes only where the count of faults rises in this call, and then the
    /// `sync` has done nothing.
    fn sync(&mut self) -> Result<(), Failed>
        requires { (tally self.old).writes < 16 }
        ensures { Syncs result
            (moment image may_leave left tally faults fuse self.old) (moment image may_leave left tally faults fuse self.new) };

    /// What a read gives is one of the images that a crash now may leave.
    ghost holds: { (disk : Self) (c : List ℕ) → image disk ≡ Some c → may_leave disk c };

    /// Now is one of the moments since the last `begin`.
    ghost counts_now: { (disk : Self) (c : List ℕ) → may_leave disk c → left disk c };

    /// What a read gives has as many octets as the disk.
    ghost fits: { (disk : Self) (c : List ℕ) → image disk ≡ Some c → length c ≡ (tally disk).size };

    /// Each place on the disk is a 64-bit number.
    ghost bounded: { (disk : Self) → (tally disk).size < 2 ^ 64 };
}
