//! An output over a writer of the system.

ghost use Rattle.std.specs.Prelude.{◌≡◌, ℕ};

use crate::outside::{Failed, Out};
use std::io::Write;

/// An output over any writer. It tells what is written where the writer does; a file, a pipe or a terminal doesn't.
/// Its count rises by one at each error of the writer, and at each write that takes nothing of a piece that isn't
/// empty.
#[derive(Debug, Drop)]
pub struct WriteOut<W: Write> {
    writer: W,
    faults: u64,
}

impl<W: Write> WriteOut<W> {
    /// An output over this writer with a count of 0.
    pub fn new(writer: W) -> WriteOut<W>
        ensures count { ⟦<WriteOut<W> as Out>⟧.faults result ≡ 0 }
        ensures content { ⟦<WriteOut<W> as Out>⟧.written result ≡ W.contents writer }
    {
        WriteOut { writer, faults: 0 }
    }
}

impl<W: Write> Out for WriteOut<W> {
    ghost faults = { λ o. o.faults };

    ghost written = { λ o. W.contents o.writer };

    fn write(&mut self, octets: &[u8]) -> Result<usize, Failed> {
        match self.writer.write(octets) {
            Ok(count) if count > 0 || octets.is_empty() => Ok(count),
            _ => {
                self.faults = self.faults.saturating_add(1);
                Err(Failed)
            }
        }
    }
}
