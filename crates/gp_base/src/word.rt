//! A word of the command line.

ghost use Rattle.std.specs.Prelude.{◌≡◌, IfOk};

use crate::outside::NoMemory;
use std::alloc::Global;
use std::marker::Model;

/// A word of the command line, as its octets.
#[derive(Debug, Drop)]
pub struct Word {
    octets: Vec<u8>,
}

impl Model for Word {
    ghost use Rattle.std.specs.Prelude.{List, ℕ};

    ghost Value = { List ℕ };

    ghost view = { λ w. w.octets.items };
}

impl Word {
    /// The word with the octets of this text.
    pub fn of(alloc: Global, text: &str) -> Result<Word, NoMemory>
        ensures { IfOk result (λ word. word ≡ text.now) }
    {
        match Vec::from_slice(alloc, text.as_bytes()) {
            Ok(octets) => Ok(Word { octets }),
            Err(_) => Err(NoMemory),
        }
    }

    /// The octets, first to last.
    pub fn as_slice(&self) -> &[u8]
        ensures { result.now ≡ self.now }
    {
        self.octets.as_slice()
    }
}
