//! The listing of a packet of a capture file.

ghost use Rattle.std.specs.Prelude.{◌≡◌, ◌++◌, OnOk};
ghost use Rattle.gp_listing.specs.Packets.{stamp_text, packet_text};

use crate::listing::push_air;
use crate::text::{push_number, push_text};
use gp_base::Key;
use gp_pcap::Packet;
use std::alloc::AllocError;

/// Adds the line of the packet with this number: the number, seconds and fraction, and the listing of its frame, with an LF.
#[tactic(auto, unfolding(crate::specs::Packets::packet_text))]
pub fn push_packet(
    text: &mut Vec<u8>,
    key: Option<Key>,
    number: u64,
    packet: &Packet,
) -> Result<(), AllocError>
    ensures { OnOk result (text.new.items ≡ text.old.items ++ packet_text key number packet.now) }
{
    push_stamp(text, number, packet)?;
    push_air(text, key, packet.frame.as_slice())?;
    push_text(text, "\n")
}

// Adds the number and the time of a packet.
#[tactic(auto, unfolding(crate::specs::Packets::stamp_text))]
fn push_stamp(text: &mut Vec<u8>, number: u64, packet: &Packet) -> Result<(), AllocError>
    ensures { OnOk result (text.new.items ≡ text.old.items ++ stamp_text number packet.now) }
{
    push_number(text, number)?;
    push_text(text, " ")?;
    push_number(text, u64::from(packet.seconds))?;
    push_text(text, " ")?;
    push_number(text, u64::from(packet.fraction))?;
    push_text(text, " ")
}
