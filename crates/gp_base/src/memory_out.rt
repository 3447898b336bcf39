//! An output in memory.

ghost use Rattle.std.specs.Prelude.{◌≡◌, ℕ, ◌<◌, ◌≤◌, ◌↔◌, Some, [], length, take, IsTrue, IsErr, IfOk, OnOk, OnErr};
ghost use Rattle.std.specs.Io.KnownBytes.{WriteAppends};
ghost use Rattle.gp_base.specs.Outside.{one_more};
ghost use Rattle.gp_base.specs.Fake.{OutState, is_refused, write_count, after_write, after_failed_write};

use crate::outside::{Failed, NoMemory, Out};
use std::alloc::Global;
use std::marker::Model;

/// An output in memory, which takes octets in pieces up to its room, and fails the calls that it was told
/// to fail.
#[derive(Debug, Drop)]
pub struct MemoryOut {
    octets: Vec<u8>,
    room: usize,
    piece: usize,
    failing: Vec<u64>,
    calls: u64,
    faults: u64,
}

impl Model for MemoryOut {
    ghost use Rattle.std.specs.Prelude.{◌≤◌, vec_len, vec_capacity};
    ghost use Rattle.gp_base.specs.Fake.{OutState};

    ghost Value = { OutState };

    ghost view = { λ o. record { written = o.octets.items; room = o.room; piece = o.piece; failing = o.failing.items; calls = o.calls; faults = o.faults } };

    ghost invariant = { λ o. (vec_len o.octets ≤ o.room) × (o.room ≤ vec_capacity o.octets) × (1 ≤ o.piece) };
}

impl MemoryOut {
    /// An empty output with room for `room` octets that takes at most `piece` of them a write. It fails the
    /// write calls, counted from 0, that `failing` names, and each write of a piece that isn't empty which
    /// finds the room full.
    pub fn new(
        alloc: Global,
        room: usize,
        piece: usize,
        failing: &[u64],
    ) -> Result<MemoryOut, NoMemory>
        requires { 1 ≤ piece }
        ensures { IfOk result (λ out. out ≡ record { written = []; room = room; piece = piece; failing = failing.now; calls = 0; faults = 0 }) }
    {
        let Ok(octets) = Vec::with_capacity(alloc, room) else {
            return Err(NoMemory);
        };
        let Ok(failing) = Vec::from_slice(alloc, failing) else {
            return Err(NoMemory);
        };
        Ok(MemoryOut {
            octets,
            room,
            piece,
            failing,
            calls: 0,
            faults: 0,
        })
    }

    /// The octets written, first to last.
    pub fn written(&self) -> &[u8]
        ensures { result.now ≡ self.now.written }
    {
        self.octets.as_slice()
    }
}

impl Out for MemoryOut {
    ghost faults = { λ o. o.faults };

    ghost written = { λ o. Some o.written };

    fn write(&mut self, octets: &[u8]) -> Result<usize, Failed>
        ensures bound { IfOk result (λ count. count ≤ length octets.now) }
        ensures progress { IfOk result (λ count. 0 < length octets.now → 0 < count) }
        ensures octets { WriteAppends (Some self.old.written) (Some self.new.written) result octets.now }
        ensures good { OnOk result (self.new.faults ≡ self.old.faults) }
        ensures failed { OnErr result (self.new.faults ≡ one_more self.old.faults) }
        ensures kept { self.old.faults ≤ self.new.faults }
        // Exactly the named calls fail, and those that find the room full.
        ensures variant { IsErr result ↔ IsTrue (is_refused self.old (length octets.now)) }
        ensures count { IfOk result (λ count. count ≡ write_count self.old (length octets.now)) }
        ensures after { IfOk result (λ count. self.new ≡ after_write self.old (take count octets.now)) }
        ensures after_failure { OnErr result (self.new ≡ after_failed_write self.old) }
    {
        let call = self.calls;
        self.calls = call.saturating_add(1);
        let is_full = !octets.is_empty() && self.octets.len() == self.room;
        if self.failing.contains(&call) || is_full {
            self.faults = self.faults.saturating_add(1);
            return Err(Failed);
        }
        let count = octets
            .len()
            .min(self.piece)
            .min(self.room - self.octets.len());
        match self.octets.extend_from_slice(&octets[..count]) {
            Ok(()) => Ok(count),
            Err(_) => unreachable!(),
        }
    }
}
