//! What a capture file gives, and why it is refused.

use gp_base::Octets;

/// A packet of a capture file.
#[derive(Drop)]
pub struct Packet {
    /// When it was captured, in seconds: those of the file, which mostly count from the year 1970 on.
    pub seconds: u32,
    /// The fraction of the second, as the file has it: microseconds or nanoseconds.
    pub fraction: u32,
    /// The frame without its FCS, cut to 126 octets: one more than the longest frame has.
    pub frame: Octets,
}

/// Why a capture file is refused.
#[derive(Clone, Copy, PartialEq, Eq, Debug)]
pub enum PcapReason {
    /// It begins with none of the four magic numbers of pcap files.
    Magic,
    /// Its major version isn't 2.
    Version,
    /// Its link type is neither 195 nor 230: its packets are no frames of IEEE 802.15.4.
    Link,
    /// A packet includes more than 65,535 octets.
    Length,
    /// It ends within its header or within a packet.
    Cut,
}
