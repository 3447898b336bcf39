//! Runs over objects in memory.

use gp_app::{Status, run};
use gp_base::{MemoryOut, MemorySource, Word};
use gp_disk::MemoryDisk;
use std::test::Fail;

mod faults;
mod formatting;
mod frames;
mod lives;
mod packets;
mod rows;
mod scripts;

// A run over an input in pieces of so many octets, with calls that are to fail.
#[derive(Clone, Copy)]
pub(crate) struct Case<'a> {
    pub(crate) arguments: &'a [&'a str],
    pub(crate) input: &'a [u8],
    pub(crate) piece: usize,
    pub(crate) failing_reads: &'a [u64],
    pub(crate) failing_writes: &'a [u64],
}

// The status and the output of a run.
pub(crate) fn outcome(rt: &HostRuntime, case: &Case) -> Result<(Status, Vec<u8>), Fail> {
    let piece = case.piece.max(1);
    let mut words = Vec::new(rt.alloc());
    for argument in case.arguments {
        words.push(Word::of(rt.alloc(), argument).ok().ok_or("memory")?)?;
    }
    let mut source = MemorySource::of(rt.alloc(), case.input, piece, case.failing_reads)
        .ok()
        .ok_or("memory")?;
    let mut out = MemoryOut::new(rt.alloc(), 65_536, piece, case.failing_writes)
        .ok()
        .ok_or("memory")?;
    let disk = MemoryDisk::new(rt.alloc(), 0).ok().ok_or("memory")?;
    let (status, _disk, _world) = run(rt.alloc(), &words, &mut source, &mut out, disk);
    let written = Vec::from_slice(rt.alloc(), out.written())?;
    Ok((status, written))
}

// A run in pieces of so many octets, with no call that fails.
pub(crate) fn in_pieces<'a>(arguments: &'a [&'a str], input: &'a [u8], piece: usize) -> Case<'a> {
    Case {
        arguments,
        input,
        piece,
        failing_reads: &[],
        failing_writes: &[],
    }
}
