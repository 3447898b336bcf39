//! What a disk in memory holds, and what a crash at some moment since its last `begin` might have left.

ghost use Rattle.std.specs.Prelude.{◌≡◌, ◌+◌, ◌≤◌, ◌<◌, true, [], ◌++◌, length, take, replicate, IfOk, vec_capacity};
ghost use Rattle.std.specs.List.{list_all};
ghost use Rattle.gp_disk.specs.Disk.{put};
ghost use Rattle.gp_disk.specs.History.{Wrote, Synced, at_rest, after_all, held_after, lived, MayLeave, written, zeroed};
ghost use Rattle.gp_disk.specs.Log.{log_events};
ghost use Rattle.gp_disk.specs.Crash.{struck};
ghost use Rattle.gp_disk.specs.Redone.{redone, ranges_of};
ghost use Rattle.gp_disk.specs.Step.{is_within, is_write};
ghost use Rattle.gp_disk.specs.Traced.{AllTraced, AllTraced-prop};

use crate::log::Log;
use crate::replay::{put_octets, put_zeros, redo, strike};
use std::alloc::{AllocError, Global};

/// An image with nothing pending, and all that has happened since: what a good sync has settled, and what is
/// pending. What happened before the last `begin` stands in front, and is no more than what was pending there.
#[derive(Drop)]
pub struct Content {
    pub origin: Vec<u8>,
    pub image: Vec<u8>,
    pub settled: Log,
    pub pending: Log,
    pub begun: usize,
    ghost sized: { length image.items ≡ length origin.items },
    ghost reads: { image.items ≡ (after_all (at_rest origin.items) (log_events settled ++ log_events pending)).seen },
    ghost traced: { AllTraced (at_rest origin.items) (log_events settled ++ log_events pending) } by { AllTraced-prop (at_rest origin.items) (log_events settled ++ log_events pending) },
    ghost certain: { (after_all (at_rest origin.items) (log_events settled)).base ≡ (after_all (at_rest origin.items) (log_events settled)).seen },
    ghost none_pending: { length (after_all (at_rest origin.items) (log_events settled)).pending ≡ 0 },
    ghost writes: { list_all is_write pending.steps.items ≡ true },
    ghost settled_within: { list_all (is_within (length origin.items)) settled.steps.items ≡ true },
    ghost pending_within: { list_all (is_within (length origin.items)) pending.steps.items ≡ true },
    ghost begun_before: { begun ≤ length settled.steps.items + length pending.steps.items },
    ghost settled_room: { 32 ≤ vec_capacity settled.steps },
    ghost settled_octets: { 524800 ≤ vec_capacity settled.octets },
    ghost pending_room: { 16 ≤ vec_capacity pending.steps },
    ghost pending_octets: { 262400 ≤ vec_capacity pending.octets },
}

impl Content {
    ghost use Rattle.gp_disk.specs.Content.{past_of, used_of};

    /// So many zeros, with nothing pending, and room for what comes.
    pub fn zeros(alloc: Global, size: usize) -> Result<Content, AllocError>
        ensures image { IfOk result (λ content. content.image.items ≡ replicate size 0) }
        ensures past { IfOk result (λ content. past_of content ≡ record { origin = replicate size 0; history = []; begun = 0 }) }
        ensures used { IfOk result (λ content. used_of content ≡ record { settled_steps = 0; settled_octets = 0; steps = 0; octets = 0 }) }
    {
        let origin = zero_octets(alloc, size)?;
        let image = zero_octets(alloc, size)?;
        let settled = Log::with_room(alloc, 32, 524_800)?;
        let pending = Log::with_room(alloc, 16, 262_400)?;
        Ok(Content {
            origin,
            image,
            settled,
            pending,
            begun: 0,
        })
    }

    /// From now on, only what a crash may leave now counts as left since then.
    pub fn begin(&mut self)
        ensures image { self.new.image ≡ self.old.image }
        ensures held { held_after (past_of self.new) ≡ held_after (past_of self.old) }
        ensures begun { self.new.begun ≡ length (past_of self.new).history }
        ensures used { used_of self.new ≡ record (used_of self.old) { settled_steps = 0; settled_octets = 0 } }
    {
        settle(&mut self.origin, &mut self.settled);
        self.begun = self.pending.steps.len();
    }

    /// Writes octets, of which the first are stored.
    pub fn write(&mut self, at: usize, octets: &[u8], stored: usize)
        requires range { at + length octets.now ≤ length self.old.image.items }
        requires stored { stored ≤ length octets.now }
        requires steps { (used_of self.old).steps < 16 }
        requires octets { (used_of self.old).octets + length octets.now ≤ 262400 }
        ensures image { self.new.image.items ≡ put at (take stored octets.now) self.old.image.items }
        ensures size { length self.new.image.items ≡ length self.old.image.items }
        ensures past { past_of self.new ≡ lived (past_of self.old) (Wrote (written at octets.now stored)) }
        ensures used { used_of self.new ≡ record (used_of self.old) { steps = (used_of self.old).steps + 1; octets = (used_of self.old).octets + length octets.now } }
    {
        write_into(&mut self.image, at, &octets[..stored]);
        self.pending.add_write(at, octets, stored);
    }

    /// Writes zeros, of which the first are stored.
    pub fn zero(&mut self, at: usize, count: usize, stored: usize)
        requires range { at + count ≤ length self.old.image.items }
        requires stored { stored ≤ count }
        requires steps { (used_of self.old).steps < 16 }
        ensures image { self.new.image.items ≡ put at (replicate stored 0) self.old.image.items }
        ensures size { length self.new.image.items ≡ length self.old.image.items }
        ensures past { past_of self.new ≡ lived (past_of self.old) (Wrote (zeroed at count stored)) }
        ensures used { used_of self.new ≡ record (used_of self.old) { steps = (used_of self.old).steps + 1 } }
    {
        zero_into(&mut self.image, at, stored);
        self.pending.add_zeros(at, count, stored);
    }

    /// Settles what is pending.
    pub fn sync(&mut self)
        requires steps { (used_of self.old).settled_steps + (used_of self.old).steps < 32 }
        requires octets { (used_of self.old).settled_octets + (used_of self.old).octets ≤ 524800 }
        ensures image { self.new.image ≡ self.old.image }
        ensures past { past_of self.new ≡ lived (past_of self.old) Synced }
        ensures used { used_of self.new ≡ record { settled_steps = (used_of self.old).settled_steps + (used_of self.old).steps + 1; settled_octets = (used_of self.old).settled_octets + (used_of self.old).octets; steps = 0; octets = 0 } }
    {
        self.settled.add_all(&self.pending);
        self.settled.add_sync();
        self.pending.clear();
    }

    /// Crashes in one of the five ways, after which nothing is pending.
    pub fn crash(&mut self, way: u8)
        ensures size { length self.new.image.items ≡ length self.old.image.items }
        ensures left { MayLeave (held_after (past_of self.old)) self.new.image.items }
        ensures image { self.new.image.items ≡ struck way (held_after (past_of self.old)).base (held_after (past_of self.old)).pending }
        ensures past { past_of self.new ≡ record { origin = self.new.image.items; history = []; begun = 0 } }
        ensures used { used_of self.new ≡ record { settled_steps = 0; settled_octets = 0; steps = 0; octets = 0 } }
    {
        settle(&mut self.origin, &mut self.settled);
        strike_on(&mut self.origin, &self.pending, way);
        self.pending.clear();
        self.begun = 0;
        copy_onto(&mut self.image, &self.origin);
    }
}

fn zero_octets(alloc: Global, size: usize) -> Result<Vec<u8>, AllocError>
    ensures { IfOk result (λ octets. octets.items ≡ replicate size 0) }
{
    vec![in alloc; 0u8; size]
}

fn write_into(image: &mut Vec<u8>, at: usize, octets: &[u8])
    requires { at + length octets.now ≤ length image.old.items }
    ensures { image.new.items ≡ put at octets.now image.old.items }
{
    put_octets(image, at, octets);
}

fn zero_into(image: &mut Vec<u8>, at: usize, count: usize)
    requires { at + count ≤ length image.old.items }
    ensures { image.new.items ≡ put at (replicate count 0) image.old.items }
{
    put_zeros(image, at, count);
}

/// Does the settled steps for good, and forgets them.
fn settle(origin: &mut Vec<u8>, settled: &mut Log)
    requires { list_all (is_within (length origin.old.items)) settled.old.steps.items ≡ true }
    ensures image { origin.new.items ≡ redone origin.old.items (log_events settled.old) }
    ensures size { length origin.new.items ≡ length origin.old.items }
    ensures events { log_events settled.new ≡ [] }
    ensures steps { settled.new.steps.items ≡ [] }
    ensures octets { settled.new.octets.items ≡ [] }
    ensures room { vec_capacity settled.new.steps ≡ vec_capacity settled.old.steps }
    ensures room_octets { vec_capacity settled.new.octets ≡ vec_capacity settled.old.octets }
{
    redo(origin, settled);
    settled.clear();
}

fn strike_on(image: &mut Vec<u8>, log: &Log, way: u8)
    requires { list_all (is_within (length image.old.items)) log.now.steps.items ≡ true }
    ensures image { image.new.items ≡ struck way image.old.items (ranges_of (log_events log.now)) }
    ensures size { length image.new.items ≡ length image.old.items }
{
    strike(image, log, way);
}

fn copy_onto(image: &mut Vec<u8>, other: &[u8])
    requires { length image.old.items ≡ length other.now }
    ensures { image.new.items ≡ other.now }
{
    image.copy_from_slice(other);
}
