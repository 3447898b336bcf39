//! Why a piece is not taken to its end.

use gp_pcap::PcapReason;

/// Why a piece is not taken to its end.
#[derive(Clone, Copy)]
pub enum Stop {
    /// A packet is one too many.
    TooLong,
    /// The file is refused, at a place for a reason.
    Bad(u64, PcapReason),
    /// A write of the output failed.
    WriteFault,
    /// Memory was asked for and not found.
    NoMemory,
}
