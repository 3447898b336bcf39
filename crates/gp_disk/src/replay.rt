//! A history done again on an image.

ghost use Rattle.std.specs.Prelude.{◌≡◌, ◌+◌, ◌≤◌, ◌<◌, true, [], ◌∷◌, length, drop, replicate};
ghost use Rattle.std.specs.List.{list_all};
ghost use Rattle.gp_disk.specs.Disk.{put};
ghost use Rattle.gp_disk.specs.Log.{log_events};
ghost use Rattle.gp_disk.specs.Crash.{filled, struck};
ghost use Rattle.gp_disk.specs.Redone.{redone, ranges_of};
ghost use Rattle.gp_disk.specs.Step.{octets_of, events, is_within};

use crate::log::{Log, Step};

/// Puts octets into an image.
pub fn put_octets(image: &mut [u8], at: usize, octets: &[u8])
    requires { at + length octets.now ≤ length image.old }
    ensures { image.new ≡ put at octets.now image.old }
{
    image[at..at + octets.len()].copy_from_slice(octets);
}

/// Puts so many zeros into an image.
pub fn put_zeros(image: &mut [u8], at: usize, count: usize)
    requires { at + count ≤ length image.old }
    ensures { image.new ≡ put at (replicate count 0) image.old }
{
    image[at..at + count].fill(0);
}

#[tactic(auto, using(crate::proofs::Replays::steps_again), unfolding(crate::specs::Step::octets_of, crate::specs::Step::events, crate::specs::Redone::redone))]
/// Does a step again, whose octets stand in front, and gives the octets behind them.
fn redo_step<'a>(image: &mut [u8], step: Step, octets: &'a [u8]) -> &'a [u8]
    requires within { is_within (length image.old) step ≡ true }
    requires enough { octets_of (step ∷ []) ≤ length octets.now }
    ensures image { image.new ≡ redone image.old (events (step ∷ []) octets.now) }
    ensures rest { result.now ≡ drop (octets_of (step ∷ [])) octets.now }
{
    match step {
        Step::Write { at, count, stored } => {
            put_octets(image, at, &octets[..stored]);
            &octets[count..]
        }
        Step::Zero { at, stored, .. } => {
            put_zeros(image, at, stored);
            octets
        }
        Step::Sync => octets,
    }
}

/// Does all steps of a log again.
pub fn redo(image: &mut [u8], log: &Log)
    requires { list_all (is_within (length image.old)) log.now.steps.items ≡ true }
    ensures { image.new ≡ redone image.old (log_events log.now) }
{
    let mut octets: &[u8] = &log.octets;
    for step in &log.steps {
        octets = redo_step(image, *step, octets);
    }
}

/// What a crash leaves in a range that was to hold these octets.
fn strike_octets(old: &mut [u8], octets: &[u8], way: u8)
    requires { length old.old ≡ length octets.now }
    ensures { old.new ≡ filled way octets.now old.old }
{
    let half = octets.len() / 2;
    match way {
        1 => old.copy_from_slice(octets),
        2 => old[..half].copy_from_slice(&octets[..half]),
        3 => old.fill(0xA5),
        4 => complement(old, octets),
        _ => {}
    }
}

/// Puts the complement of each octet.
fn complement(old: &mut [u8], octets: &[u8])
    requires { length old.old ≡ length octets.now }
    ensures { old.new ≡ filled 4 octets.now old.old }
{
    for i in 0..octets.len() {
        old[i] = 255 - octets[i];
    }
}

/// What a crash leaves in a range that was to hold zeros.
fn strike_zeros(old: &mut [u8], way: u8)
    ensures { old.new ≡ filled way (replicate (length old.old) 0) old.old }
{
    let half = old.len() / 2;
    match way {
        1 => old.fill(0),
        2 => old[..half].fill(0),
        3 => old.fill(0xA5),
        4 => old.fill(0xFF),
        _ => {}
    }
}

#[tactic(auto, using(crate::proofs::Replays::steps_again), unfolding(crate::specs::Step::octets_of, crate::specs::Step::events, crate::specs::Crash::struck, crate::specs::Redone::ranges_of))]
/// Strikes the range of a step, whose octets stand in front, and gives the octets behind them.
fn strike_step<'a>(image: &mut [u8], step: Step, octets: &'a [u8], way: u8) -> &'a [u8]
    requires within { is_within (length image.old) step ≡ true }
    requires enough { octets_of (step ∷ []) ≤ length octets.now }
    ensures image { image.new ≡ struck way image.old (ranges_of (events (step ∷ []) octets.now)) }
    ensures rest { result.now ≡ drop (octets_of (step ∷ [])) octets.now }
{
    match step {
        Step::Write { at, count, .. } => {
            strike_octets(&mut image[at..at + count], &octets[..count], way);
            &octets[count..]
        }
        Step::Zero { at, count, .. } => {
            strike_zeros(&mut image[at..at + count], way);
            octets
        }
        Step::Sync => octets,
    }
}

/// Strikes the ranges of a log, in order.
pub fn strike(image: &mut [u8], log: &Log, way: u8)
    requires { list_all (is_within (length image.old)) log.now.steps.items ≡ true }
    ensures { image.new ≡ struck way image.old (ranges_of (log_events log.now)) }
{
    let mut octets: &[u8] = &log.octets;
    for step in &log.steps {
        octets = strike_step(image, *step, octets, way);
    }
}
