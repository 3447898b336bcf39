//! What no clause says: the octets of files in both orders, with each answer at the end.

use gp_pcap::{Pcap, PcapReason};

// A file of link type 230 with one packet, a frame of 14 octets.
const FILE: [u8; 54] = [
    0xD4, 0xC3, 0xB2, 0xA1, 2, 0, 4, 0, 0, 0, 0, 0, 0, 0, 0, 0, 0xFF, 0xFF, 0, 0, 0xE6, 0, 0, 0, 1,
    0, 0, 0, 2, 0, 0, 0, 14, 0, 0, 0, 14, 0, 0, 0, 1, 8, 0x0A, 0xFF, 0xFF, 0xFF, 0xFF, 0x8C, 0,
    0x21, 0x43, 0x65, 0x87, 0x20,
];

// The same most significant octet first and in nanoseconds, of link type 195, and a packet of one octet behind it.
const OTHER: [u8; 73] = [
    0xA1, 0xB2, 0x3C, 0x4D, 0, 2, 0, 4, 0, 0, 0, 0, 0, 0, 0, 0, 0, 0, 0xFF, 0xFF, 0, 0, 0, 0xC3, 0,
    0, 0, 1, 0, 0, 0, 2, 0, 0, 0, 16, 0, 0, 0, 16, 1, 8, 0x0A, 0xFF, 0xFF, 0xFF, 0xFF, 0x8C, 0,
    0x21, 0x43, 0x65, 0x87, 0x20, 0xAA, 0xBB, 0, 0, 0, 3, 0, 0, 0, 4, 0, 0, 0, 1, 0, 0, 0, 7, 0x55,
];

// What is read of a file: how many packets, how many octets their frames have together, and the answer at the end.
fn read(octets: &[u8]) -> (usize, usize, Result<(), (u64, PcapReason)>) {
    let mut pcap = Pcap::new();
    let mut packets = 0usize;
    let mut size = 0usize;
    for octet in octets {
        if let Some(count) = feed(&mut pcap, *octet) {
            packets = packets.saturating_add(1);
            size = size.saturating_add(count);
        }
    }
    (packets, size, pcap.end())
}

// How many octets the frame of the packet has that this octet ends.
fn feed(pcap: &mut Pcap, octet: u8) -> Option<usize> {
    if pcap.is_full() {
        return None;
    }
    match pcap.feed(octet) {
        Ok(Some(packet)) => Some(packet.frame.as_slice().len()),
        _ => None,
    }
}

#[test]
fn files_in_both_orders(rt: HostRuntime) {
    assert_eq!(rt; read(&FILE), (1, 14, Ok(())));
    assert_eq!(rt; read(&OTHER), (2, 15, Ok(())));
    assert_eq!(rt; read(&FILE[..39]), (0, 0, Err((39, PcapReason::Cut))));
    assert_eq!(rt; read(&OTHER[..72]), (1, 14, Err((72, PcapReason::Cut))));
    assert_eq!(rt; read(&[]), (0, 0, Err((0, PcapReason::Cut))));
    assert_eq!(rt;
        read(b"\x0A\x0D\x0D\x0A"),
        (0, 0, Err((0, PcapReason::Magic)))
    );
}
