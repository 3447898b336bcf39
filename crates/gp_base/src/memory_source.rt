//! A source in memory.

ghost use Rattle.std.specs.Prelude.{◌≡◌, ℕ, ◌≤◌, ◌↔◌, ◌++◌, Some, length, take, drop, min, IsTrue, IsErr, IfOk, OnOk, OnErr};
ghost use Rattle.std.specs.Io.KnownBytes.{ReadConsumes};
ghost use Rattle.gp_base.specs.Outside.{one_more};
ghost use Rattle.gp_base.specs.Fake.{SourceState, is_listed, read_count, after_read, after_failed_read};

use crate::outside::{Failed, NoMemory, Source};
use std::alloc::Global;
use std::marker::Model;

/// A source in memory, which gives its octets in pieces and fails the calls that it was told to fail.
#[derive(Debug, Drop)]
pub struct MemorySource {
    octets: Vec<u8>,
    at: usize,
    piece: usize,
    failing: Vec<u64>,
    calls: u64,
    faults: u64,
}

impl Model for MemorySource {
    ghost use Rattle.std.specs.Prelude.{◌≤◌, drop, vec_len};
    ghost use Rattle.gp_base.specs.Fake.{SourceState};

    ghost Value = { SourceState };

    ghost view = { λ s. record { left = drop s.at s.octets.items; piece = s.piece; failing = s.failing.items; calls = s.calls; faults = s.faults } };

    ghost invariant = { λ s. (s.at ≤ vec_len s.octets) × (1 ≤ s.piece) };
}

impl MemorySource {
    /// A source of these octets that gives at most `piece` of them a read, and fails the read calls,
    /// counted from 0, that `failing` names.
    pub fn of(
        alloc: Global,
        octets: &[u8],
        piece: usize,
        failing: &[u64],
    ) -> Result<MemorySource, NoMemory>
        requires { 1 ≤ piece }
        ensures { IfOk result (λ source. source ≡ record { left = octets.now; piece = piece; failing = failing.now; calls = 0; faults = 0 }) }
    {
        let Ok(octets) = Vec::from_slice(alloc, octets) else {
            return Err(NoMemory);
        };
        let Ok(failing) = Vec::from_slice(alloc, failing) else {
            return Err(NoMemory);
        };
        Ok(MemorySource {
            octets,
            at: 0,
            piece,
            failing,
            calls: 0,
            faults: 0,
        })
    }
}

impl Source for MemorySource {
    ghost faults = { λ s. s.faults };

    ghost left = { λ s. Some s.left };

    fn read(&mut self, into: &mut [u8]) -> Result<usize, Failed>
        ensures bound { IfOk result (λ count. count ≤ length into.new) }
        ensures octets { ReadConsumes (Some self.old.left) (Some self.new.left) result into.new }
        ensures nothing_given { OnErr result (into.new ≡ into.old) }
        ensures good { OnOk result (self.new.faults ≡ self.old.faults) }
        ensures failed { OnErr result (self.new.faults ≡ one_more self.old.faults) }
        ensures kept { self.old.faults ≤ self.new.faults }
        // Exactly the named calls fail.
        ensures variant { IsErr result ↔ IsTrue (is_listed self.old.failing self.old.calls) }
        ensures count { IfOk result (λ count. count ≡ read_count self.old (length into.old)) }
        ensures given { IfOk result (λ count. into.new ≡ take count self.old.left ++ drop count into.old) }
        ensures after { IfOk result (λ count. self.new ≡ after_read self.old count) }
        ensures after_failure { OnErr result (self.new ≡ after_failed_read self.old) }
    {
        let call = self.calls;
        self.calls = call.saturating_add(1);
        if self.failing.contains(&call) {
            self.faults = self.faults.saturating_add(1);
            return Err(Failed);
        }
        let count = hand_over(&self.octets[self.at..], into, self.piece);
        self.at += count;
        Ok(count)
    }
}

// Copies from the front of what is left into the front of a buffer, and gives how many octets it copied.
fn hand_over(left: &[u8], into: &mut [u8], most: usize) -> usize
    ensures count { result ≡ min (length into.old) (min most (length left.now)) }
    ensures given { into.new ≡ take result left.now ++ drop result into.old }
    ensures parts { left.now ≡ take result into.new ++ drop result left.now }
{
    let count = into.len().min(most).min(left.len());
    into[..count].copy_from_slice(&left[..count]);
    count
}
