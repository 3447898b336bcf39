//! What has happened to a disk, in memory that is taken once.

ghost use Rattle.std.specs.Prelude.{◌≡◌, ◌+◌, ◌≤◌, ◌<◌, [], ◌∷◌, ◌++◌, length, IfOk, vec_capacity};
ghost use Rattle.gp_disk.specs.declared.log.Step.TheVariants.{Write, Zero, Sync};
ghost use Rattle.gp_disk.specs.History.{Wrote, Synced, written, zeroed};
ghost use Rattle.gp_disk.specs.Step.{octets_of, events};

use std::alloc::{AllocError, Global};

/// Something that changes a disk. The octets of a `Write` stand in the log, behind those of the steps before it.
#[derive(Clone, Copy, PartialEq, Eq, Debug)]
pub enum Step {
    /// So many octets were to be written at a place, and the first of them were stored.
    Write {
        at: usize,
        count: usize,
        stored: usize,
    },
    /// The same with zeros.
    Zero {
        at: usize,
        count: usize,
        stored: usize,
    },
    /// A good sync.
    Sync,
}

/// A list of steps in order.
#[derive(Drop)]
pub struct Log {
    pub steps: Vec<Step>,
    pub octets: Vec<u8>,
    ghost whole: { length octets.items ≡ octets_of steps.items },
}

#[tactic(auto, using(crate::proofs::Steps::log_steps), unfolding(crate::specs::Step::octets_of, crate::specs::Step::events))]
impl Log {
    ghost use Rattle.gp_disk.specs.Log.{log_events};

    /// No steps, and room for so many with so many octets.
    pub fn with_room(alloc: Global, steps: usize, octets: usize) -> Result<Log, AllocError>
        ensures events { IfOk result (λ log. log_events log ≡ []) }
        ensures empty { IfOk result (λ log. log.steps.items ≡ []) }
        ensures no_octets { IfOk result (λ log. log.octets.items ≡ []) }
        ensures room { IfOk result (λ log. steps ≤ vec_capacity log.steps) }
        ensures octets { IfOk result (λ log. octets ≤ vec_capacity log.octets) }
    {
        let steps = Vec::with_capacity(alloc, steps)?;
        let octets = Vec::with_capacity(alloc, octets)?;
        Ok(Log { steps, octets })
    }

    /// Adds a write of octets of which the first were stored.
    pub fn add_write(&mut self, at: usize, octets: &[u8], stored: usize)
        requires room { length self.old.steps.items < vec_capacity self.old.steps }
        requires octets { length self.old.octets.items + length octets.now ≤ vec_capacity self.old.octets }
        ensures events { log_events self.new ≡ log_events self.old ++ Wrote (written at octets.now stored) ∷ [] }
        ensures steps { self.new.steps.items ≡ self.old.steps.items ++ Write at (length octets.now) stored ∷ [] }
        ensures octets { self.new.octets.items ≡ self.old.octets.items ++ octets.now }
        ensures room { vec_capacity self.old.steps ≤ vec_capacity self.new.steps }
        ensures room_octets { vec_capacity self.old.octets ≤ vec_capacity self.new.octets }
    {
        let count = octets.len();
        add_step(&mut self.steps, Step::Write { at, count, stored });
        add_octets(&mut self.octets, octets);
    }

    /// Adds a write of zeros of which the first were stored.
    pub fn add_zeros(&mut self, at: usize, count: usize, stored: usize)
        requires { length self.old.steps.items < vec_capacity self.old.steps }
        ensures events { log_events self.new ≡ log_events self.old ++ Wrote (zeroed at count stored) ∷ [] }
        ensures steps { self.new.steps.items ≡ self.old.steps.items ++ Zero at count stored ∷ [] }
        ensures octets { self.new.octets ≡ self.old.octets }
        ensures room { vec_capacity self.old.steps ≤ vec_capacity self.new.steps }
    {
        add_step(&mut self.steps, Step::Zero { at, count, stored });
    }

    /// Adds a good sync.
    pub fn add_sync(&mut self)
        requires { length self.old.steps.items < vec_capacity self.old.steps }
        ensures events { log_events self.new ≡ log_events self.old ++ Synced ∷ [] }
        ensures steps { self.new.steps.items ≡ self.old.steps.items ++ Sync ∷ [] }
        ensures octets { self.new.octets ≡ self.old.octets }
        ensures room { vec_capacity self.old.steps ≤ vec_capacity self.new.steps }
    {
        add_step(&mut self.steps, Step::Sync);
    }

    /// Adds all the steps of another log.
    pub fn add_all(&mut self, other: &Log)
        requires room { length self.old.steps.items + length other.now.steps.items ≤ vec_capacity self.old.steps }
        requires octets { length self.old.octets.items + length other.now.octets.items ≤ vec_capacity self.old.octets }
        ensures events { log_events self.new ≡ log_events self.old ++ log_events other.now }
        ensures steps { self.new.steps.items ≡ self.old.steps.items ++ other.now.steps.items }
        ensures octets { self.new.octets.items ≡ self.old.octets.items ++ other.now.octets.items }
        ensures room { vec_capacity self.old.steps ≤ vec_capacity self.new.steps }
        ensures room_octets { vec_capacity self.old.octets ≤ vec_capacity self.new.octets }
    {
        add_steps(&mut self.steps, &other.steps);
        add_octets(&mut self.octets, &other.octets);
    }

    /// Drops all steps, and keeps the room.
    pub fn clear(&mut self)
        ensures events { log_events self.new ≡ [] }
        ensures steps { self.new.steps.items ≡ [] }
        ensures octets { self.new.octets.items ≡ [] }
        ensures room { vec_capacity self.new.steps ≡ vec_capacity self.old.steps }
        ensures room_octets { vec_capacity self.new.octets ≡ vec_capacity self.old.octets }
    {
        self.steps.clear();
        self.octets.clear();
    }
}

/// Adds a step where there is room for it.
fn add_step(steps: &mut Vec<Step>, step: Step)
    requires { length steps.old.items < vec_capacity steps.old }
    ensures items { steps.new.items ≡ steps.old.items ++ step ∷ [] }
    ensures room { vec_capacity steps.old ≤ vec_capacity steps.new }
{
    let _ = steps.push(step);
}

/// Adds octets where there is room for them.
fn add_octets(all: &mut Vec<u8>, octets: &[u8])
    requires { length all.old.items + length octets.now ≤ vec_capacity all.old }
    ensures items { all.new.items ≡ all.old.items ++ octets.now }
    ensures room { vec_capacity all.old ≤ vec_capacity all.new }
{
    let _ = all.extend_from_slice(octets);
}

/// Adds steps where there is room for them.
fn add_steps(all: &mut Vec<Step>, steps: &[Step])
    requires { length all.old.items + length steps.now ≤ vec_capacity all.old }
    ensures items { all.new.items ≡ all.old.items ++ steps.now }
    ensures room { vec_capacity all.old ≤ vec_capacity all.new }
{
    let _ = all.extend_from_slice(steps);
}
