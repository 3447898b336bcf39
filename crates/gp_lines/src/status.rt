//! How a run ends.

use gp_pcap::PcapReason;
use gp_script::LineReason;

/// Why a disk is refused.
#[derive(Clone, Copy, PartialEq, Eq, Debug)]
pub enum DiskReason {
    /// It has fewer octets than its format needs.
    DiskShort,
    /// Its header isn't that of a formatted disk.
    NotFormatted,
    /// Its first octet is A5, the open gate of a header, whatever stands behind it.
    AlreadyFormatted,
    /// A slot is ill; this is the one with the smallest number.
    SlotForm {
        /// The number of the slot.
        slot: u32,
    },
}

/// How a run ends. The exit statuses of the program are 0 to 10 in this order.
#[derive(Clone, Copy, PartialEq, Eq, Debug)]
pub enum Status {
    /// All is done: a listing or a script has read the input to its end and written all of its output, a formatting has
    /// written the empty store.
    Done,
    /// A line is refused; the lines before it are written.
    BadLine {
        /// The number of the line, from 1 on.
        line: u64,
        /// Why it is refused.
        reason: LineReason,
    },
    /// The arguments are no form of the command line.
    Usage,
    /// A read of the source failed.
    ReadFault,
    /// A write of the output failed.
    WriteFault,
    /// A call of the disk failed.
    DiskFault,
    /// Memory was asked for and not found.
    NoMemory,
    /// The disk is refused.
    DiskRefused(DiskReason),
    /// A change is due and the last generation is the greatest number.
    Worn {
        /// The last generation.
        generation: u64,
    },
    /// Line 1,000,001 or packet 1,000,001 begins, or a line has more than 1,024 octets.
    TooLong,
    /// A capture file is refused; the packets before it are listed.
    BadPcap {
        /// The place, in octets from its beginning.
        place: u64,
        /// Why it is refused.
        reason: PcapReason,
    },
}
