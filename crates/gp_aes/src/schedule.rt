//! The expanded key, and the cipher under it.
ghost use Rattle.std.specs.Prelude.{◌≡◌, ℕ, ◌+◌};
ghost use Rattle.gp_aes.specs.Cipher.{cipher};

use crate::round::{Columns, add_key, block_of, columns_of, last_round, next_key, whole_round};
use gp_base::Steps;
use std::marker::Model;
use std::sync::ledger::Ledger;

/// The expanded key of AES-128: eleven round keys (FIPS 197, 5.2). A clause reads it as the key.
#[derive(Drop)]
pub struct Schedule {
    keys: [Columns; 11],
}

impl Model for Schedule {
    ghost use Rattle.std.specs.Prelude.{◌≡◌, ℕ, ◌<◌, List, []};
    ghost use Rattle.std.specs.Prelude.{slice_index_or};
    ghost use Rattle.gp_aes.specs.Columns.{octets_of};
    ghost use Rattle.gp_aes.specs.KeyExpansion.{round_key};

    ghost Value = { List ℕ };

    ghost view = { λ s. octets_of (slice_index_or s.keys 0 []) };

    ghost invariant = { λ s. (j : ℕ) → j < 11 → octets_of (slice_index_or s.keys j []) ≡ round_key (octets_of (slice_index_or s.keys 0 [])) j };
}

impl Schedule {
    /// Expands a key.
    pub fn new(key: &[u8; 16]) -> Schedule
        ensures { result ≡ key.now }
    {
        let mut keys = [columns_of(key); 11];
        for j in 1..11 {
            keys[j] = next_key(keys[j - 1], j);
        }
        Schedule { keys }
    }

    /// The cipher on one block. It counts one step.
    pub fn encrypt<L: Ledger>(&self, block: [u8; 16], steps: &mut Steps<L>) -> [u8; 16]
        ensures value { result ≡ cipher self.now block }
        ensures cost { steps.new ≡ steps.old + 1 }
    {
        steps.tick();
        let mut state = add_key(columns_of(&block), self.keys[0]);
        for j in 1..10 {
            let next = whole_round(state, self.keys[j]);
            state = next;
        }
        block_of(last_round(state, self.keys[10]))
    }
}
