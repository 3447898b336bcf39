//! Capture files of the pcap kind, read octet by octet in constant memory.
//! To the layer above, `Pcap` stands for the octets that it was fed: it gives each packet at its last octet, refuses a file at
//! the first octet that settles that it is bad, and says at the end whether the octets were a whole file.
//! The contracts cite `Capture`, which says what is a file of which packets, and why octets are none; and `Reading`, what the
//! reader stands for.
#![tactic(auto)]

mod numbers;
mod packet;
mod pcap;

pub use packet::{Packet, PcapReason};
pub use pcap::Pcap;
