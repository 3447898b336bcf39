//! A source over a reader of the system.

ghost use Rattle.std.specs.Prelude.{◌≡◌, ◌≤◌, ◌<◌, ℕ, length, IfOk, OnErr};
ghost use Rattle.std.specs.Io.KnownBytes.{ReadConsumes};

use crate::outside::{Failed, Source};
use std::io;
use std::io::Read;

/// How many octets a source over a reader reads at most in one call.
const PIECE: usize = 16384;

/// A source over any reader. It tells what is left where the reader does; a file, a pipe or a terminal doesn't.
/// Its count rises by one at each error of the reader.
///
/// It reads at most 16,384 octets a call into a place of its own, since a reader that fails may have written into what
/// it was handed.
#[derive(Debug, Drop)]
pub struct ReadSource<R: Read> {
    reader: R,
    piece: [u8; PIECE],
    faults: u64,
}

impl<R: Read> ReadSource<R> {
    /// A source over this reader with a count of 0.
    pub fn new(reader: R) -> ReadSource<R>
        ensures count { ⟦<ReadSource<R> as Source>⟧.faults result ≡ 0 }
        ensures content { ⟦<ReadSource<R> as Source>⟧.left result ≡ R.remaining reader }
    {
        ReadSource {
            reader,
            piece: [0; PIECE],
            faults: 0,
        }
    }
}

impl<R: Read> Source for ReadSource<R> {
    ghost faults = { λ s. s.faults };

    ghost left = { λ s. R.remaining s.reader };

    fn read(&mut self, into: &mut [u8]) -> Result<usize, Failed> {
        let most = into.len().min(PIECE);
        let own = &mut self.piece[..];
        match read_by(&mut self.reader, &mut own[..most], into) {
            Ok(count) => Ok(count),
            Err(_) => {
                self.faults = self.faults.saturating_add(1);
                Err(Failed)
            }
        }
    }
}

// Reads into a piece, and copies what was read into the front of a buffer.
fn read_by<R: Read>(reader: &mut R, piece: &mut [u8], into: &mut [u8]) -> io::Result<usize>
    requires room { length piece.old ≤ length into.old }
    requires some { 0 < length into.old → 0 < length piece.old }
    ensures bound { IfOk result (λ count. count ≤ length into.new) }
    ensures octets { ReadConsumes (R.remaining reader.old) (R.remaining reader.new) result into.new }
    ensures nothing_given { OnErr result (into.new ≡ into.old) }
{
    match reader.read(piece) {
        Ok(count) => {
            into[..count].copy_from_slice(&piece[..count]);
            Ok(count)
        }
        Err(error) => Err(error),
    }
}
