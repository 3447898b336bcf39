//! A disk in memory, which can be made to stop, to fail and to crash.

ghost use Rattle.std.specs.Prelude.{◌≡◌, ◌+◌, ◌/◌, ◌≤◌, ◌<◌, ◌^◌, false, length, replicate, Some, IfOk, IfSome, is_ok, if◌then◌else◌};
ghost use Rattle.gp_disk.specs.Calls.{Begins, Reads, Writes, Syncs};
ghost use Rattle.gp_disk.specs.Disk.{part, Same};
ghost use Rattle.gp_disk.specs.History.{at_rest, happen, Wrote, Synced, written, zeroed};
ghost use Rattle.gp_disk.specs.Crash.{stored_of, struck};
ghost use Rattle.gp_disk.specs.Fuse.{Stop, Fault, Unarmed, Waits, Running, crashed, rearmed, deferred, is_due, has_stopped};

use crate::Disk;
use crate::arming::Ending;
use crate::content::Content;
use crate::counts::Counts;
use crate::trigger::Trigger;
use gp_base::{Failed, NoMemory};
use std::alloc::Global;

/// A disk in memory. It holds what the last good sync or crash left, or the zeros of a new disk; the ranges written
/// since; and what a crash at some moment since the last `begin` might have left.
#[derive(Drop)]
pub struct MemoryDisk {
    content: Content,
    counts: Counts,
    trigger: Trigger,
    ghost bounded: { length content.image.items < 2 ^ 64 },
    ghost few_writes: { counts.writes ≤ 16 },
    ghost few_octets: { counts.octets ≤ 262400 },
    ghost settled_steps: { length content.settled.steps.items + length content.pending.steps.items ≤ 16 + counts.writes },
    ghost settled_octets: { length content.settled.octets.items + length content.pending.octets.items ≤ 262400 + counts.octets },
    ghost pending_steps: { length content.pending.steps.items ≤ 16 },
    ghost pending_octets: { length content.pending.octets.items ≤ 262400 },
    ghost own_steps: { counts.unsettled ≡ false → length content.pending.steps.items ≤ counts.writes },
    ghost own_octets: { counts.unsettled ≡ false → length content.pending.octets.items ≤ counts.octets },
    ghost no_steps: { counts.pending ≡ false → length content.pending.steps.items ≡ 0 },
    ghost no_octets: { counts.pending ≡ false → length content.pending.octets.items ≡ 0 },
}

impl Disk for MemoryDisk {
    ghost use Rattle.gp_disk.specs.Memory.{memory_image, memory_held, memory_may_leave, memory_left, memory_tally, memory_faults, memory_fuse, memory_moment};
    ghost use Rattle.gp_disk.specs.MemoryLaws.{memory_holds, memory_counts_now, memory_fits};

    ghost image = { memory_image };

    ghost may_leave = { memory_may_leave };

    ghost left = { memory_left };

    ghost tally = { memory_tally };

    ghost faults = { memory_faults };

    ghost fuse = { memory_fuse };

    ghost holds = { memory_holds };

    ghost counts_now = { memory_counts_now };

    ghost fits = { memory_fits };

    ghost bounded = { λ disk. disk.bounded };

    fn size(&self) -> u64 {
        self.content.image.len() as u64
    }

    fn begin(&mut self)
        ensures begins { Begins (memory_moment self.old) (memory_moment self.new) }
        ensures held { memory_held self.new ≡ memory_held self.old }
    {
        self.content.begin();
        self.counts.begin();
        self.trigger.begin();
    }

    fn read(&mut self, at: u64, into: &mut [u8]) -> Result<(), Failed>
        requires range { at + length into.old ≤ (memory_tally self.old).size }
        ensures reads { Reads at into.old into.new result (memory_moment self.old) (memory_moment self.new) }
        ensures held { memory_held self.new ≡ memory_held self.old }
    {
        let good = self.trigger.call();
        self.counts.read();
        if good {
            copy_part(&self.content.image, at as usize, into);
        }
        answer(good)
    }

    fn write_at(&mut self, at: u64, octets: &[u8]) -> Result<(), Failed>
        requires range { at + length octets.now ≤ (memory_tally self.old).size }
        requires calls { (memory_tally self.old).writes < 16 }
        requires room { (memory_tally self.old).octets + length octets.now ≤ 262400 }
        requires settled { (memory_tally self.old).unsettled ≡ false }
        ensures writes { Writes at (length octets.now) octets.now (length octets.now) result (memory_moment self.old) (memory_moment self.new) }
        ensures held { memory_held self.new ≡ happen (memory_held self.old) (Wrote (written at octets.now (stored_of (is_ok result) (length octets.now)))) }
    {
        let count = octets.len();
        let good = self.trigger.call();
        self.content
            .write(at as usize, octets, how_many_stored(good, count));
        self.counts.write(count as u64);
        answer(good)
    }

    fn zero(&mut self, at: u64, count: u64) -> Result<(), Failed>
        requires range { at + count ≤ (memory_tally self.old).size }
        requires calls { (memory_tally self.old).writes < 16 }
        requires settled { (memory_tally self.old).unsettled ≡ false }
        ensures writes { Writes at count (replicate count 0) 0 result (memory_moment self.old) (memory_moment self.new) }
        ensures held { memory_held self.new ≡ happen (memory_held self.old) (Wrote (zeroed at count (stored_of (is_ok result) count))) }
    {
        let count = count as usize;
        let good = self.trigger.call();
        self.content
            .zero(at as usize, count, how_many_stored(good, count));
        self.counts.write(0);
        answer(good)
    }

    fn sync(&mut self) -> Result<(), Failed>
        requires { (memory_tally self.old).writes < 16 }
        ensures syncs { Syncs result (memory_moment self.old) (memory_moment self.new) }
        ensures held { memory_held self.new ≡ (if is_ok result then happen (memory_held self.old) Synced else memory_held self.old) }
    {
        if !self.trigger.call() {
            self.counts.failed_sync();
            return Err(Failed);
        }
        self.content.sync();
        self.counts.sync();
        Ok(())
    }
}

impl MemoryDisk {
    ghost use Rattle.gp_disk.specs.Memory.{memory_image, memory_held, memory_tally, memory_faults, memory_fuse, memory_may_leave, memory_left, SameButFuse};

    /// A disk of so many octets, all of them zero, with nothing pending and nothing armed. It takes all the memory
    /// that it will ever need.
    pub fn new(alloc: Global, size: u64) -> Result<MemoryDisk, NoMemory>
        ensures image { IfOk result (λ disk. memory_image disk ≡ Some (replicate size 0)) }
        ensures held { IfOk result (λ disk. memory_held disk ≡ at_rest (replicate size 0)) }
        ensures since { IfOk result (λ disk. Same (memory_may_leave disk) (memory_left disk)) }
        ensures tally { IfOk result (λ disk. memory_tally disk ≡ record { size = size; begins = 0; before = 0; calls = 0; writes = 0; octets = 0; pending = false; unsettled = false }) }
        ensures faults { IfOk result (λ disk. memory_faults disk ≡ 0) }
        ensures fuse { IfOk result (λ disk. memory_fuse disk ≡ Running Unarmed) }
    {
        let Ok(content) = Content::zeros(alloc, size as usize) else {
            return Err(NoMemory);
        };
        Ok(MemoryDisk {
            content,
            counts: Counts::none(),
            trigger: Trigger::unarmed(),
        })
    }

    /// Arms a stop: it is due from the `begin` of this number on, until the next `begin` or a crash. While it is due,
    /// so many device calls go through, and the next one stops the disk. It takes the place of what was armed.
    pub fn arm_cut(&mut self, begins: u64, calls: u64)
        requires { 1 ≤ begins }
        ensures fuse { memory_fuse self.new ≡ rearmed (Waits begins calls Stop) (memory_fuse self.old) }
        ensures same { SameButFuse self.old self.new }
    {
        self.trigger.arm(begins, calls, Ending::Stop);
    }

    /// Arms a fault, which falls as a stop does, and fails that call alone.
    pub fn arm_fault(&mut self, begins: u64, calls: u64)
        requires { 1 ≤ begins }
        ensures fuse { memory_fuse self.new ≡ rearmed (Waits begins calls Fault) (memory_fuse self.old) }
        ensures same { SameButFuse self.old self.new }
    {
        self.trigger.arm(begins, calls, Ending::Fault);
    }

    /// Tells that an arming is due.
    pub fn due(&self) -> bool
        ensures { result ≡ is_due (memory_fuse self.now) }
    {
        self.trigger.is_due()
    }

    /// Makes an arming that isn't due wait for one `begin` more. One that waits for the greatest 64-bit number of them
    /// stays as it is.
    pub fn defer(&mut self)
        ensures fuse { memory_fuse self.new ≡ deferred (memory_fuse self.old) }
        ensures same { SameButFuse self.old self.new }
    {
        self.trigger.defer();
    }

    /// Tells that a stop has come. After it every device call fails until a crash.
    pub fn stopped(&self) -> bool
        ensures { result ≡ has_stopped (memory_fuse self.now) }
    {
        self.trigger.stopped
    }

    /// Crashes in one of five ways: in the order in which they were written, each range that is pending on the image
    /// that the last good sync or crash left is filled with what stood there (0), the new octets (1), their first half
    /// and behind it what stood there (2), A5 in each octet (3), or the complement of each new octet (4). Nothing is
    /// pending then, a due arming is dropped, and calls are allowed again. What might have been left since the last
    /// `begin` is forgotten.
    pub fn crash(&mut self, way: u8)
        requires { way ≤ 4 }
        ensures image { memory_image self.new ≡ Some (struck way (memory_held self.old).base (memory_held self.old).pending) }
        ensures left { IfSome (memory_image self.new) (memory_may_leave self.old) }
        ensures held { IfSome (memory_image self.new) (λ image. memory_held self.new ≡ at_rest image) }
        ensures since { Same (memory_may_leave self.new) (memory_left self.new) }
        ensures tally { memory_tally self.new ≡ record (memory_tally self.old) { pending = false; unsettled = false } }
        ensures faults { memory_faults self.new ≡ memory_faults self.old }
        ensures fuse { memory_fuse self.new ≡ crashed (memory_fuse self.old) }
    {
        self.content.crash(way);
        self.counts.crash();
        self.trigger.crash();
    }
}

/// Copies a part of an image.
fn copy_part(image: &[u8], at: usize, into: &mut [u8])
    requires { at + length into.old ≤ length image.now }
    ensures { into.new ≡ part at (length into.old) image.now }
{
    into.copy_from_slice(&image[at..at + into.len()]);
}

/// How many of so many octets a write stores, by whether it is good.
fn how_many_stored(good: bool, count: usize) -> usize
    ensures { result ≡ stored_of good count }
{
    if good { count } else { count / 2 }
}

fn answer(good: bool) -> Result<(), Failed>
    ensures { is_ok result ≡ good }
{
    if good { Ok(()) } else { Err(Failed) }
}
