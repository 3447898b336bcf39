//! Why a piece is not taken to its end.

use crate::work::Halt;

/// Why a piece is not taken to its end.
#[derive(Clone, Copy)]
pub enum Stop {
    /// A line is one too many or too wide.
    TooLong,
    /// A write of the output failed.
    WriteFault,
    /// The work stops at the line with this number, from 1 on.
    Halted(u64, Halt),
}
