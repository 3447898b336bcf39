//! Capture files in pieces of any size, cut at each octet, and reads and writes that fail.

use super::{Case, in_pieces, outcome};
use gp_app::Status;
use gp_pcap::PcapReason;
use std::test::Fail;

const PCAP: &[&str] = &["pcap"];

const LISTING: &str =
    "0 1 2 data seq=0A pan=FFFF dest=FFFF auto=0 ext=00 src=87654321 counter=- body=20 mic=- read=Plain tag=-\n";

// A file of link type 230 with one packet; the same most significant octet first; and one of link type 195, with an FCS.
const FILES: [&[u8]; 3] = [
    b"\xD4\xC3\xB2\xA1\x02\0\x04\0\0\0\0\0\0\0\0\0\xFF\xFF\0\0\xE6\0\0\0\x01\0\0\0\x02\0\0\0\x0E\0\0\0\x0E\0\0\0\x01\x08\x0A\xFF\xFF\xFF\xFF\x8C\0\x21\x43\x65\x87\x20",
    b"\xA1\xB2\xC3\xD4\0\x02\0\x04\0\0\0\0\0\0\0\0\0\0\xFF\xFF\0\0\0\xE6\0\0\0\x01\0\0\0\x02\0\0\0\x0E\0\0\0\x0E\x01\x08\x0A\xFF\xFF\xFF\xFF\x8C\0\x21\x43\x65\x87\x20",
    b"\xD4\xC3\xB2\xA1\x02\0\x04\0\0\0\0\0\0\0\0\0\xFF\xFF\0\0\xC3\0\0\0\x01\0\0\0\x02\0\0\0\x10\0\0\0\x10\0\0\0\x01\x08\x0A\xFF\xFF\xFF\xFF\x8C\0\x21\x43\x65\x87\x20\x12\x34",
];

// What comes of the first octets of a file of one packet, so many of them.
fn expected(file: &[u8], size: usize) -> (Status, &'static str) {
    if size == file.len() {
        (Status::Done, LISTING)
    } else if size == 24 {
        (Status::Done, "")
    } else {
        let place = size as u64;
        let reason = PcapReason::Cut;
        (Status::BadPcap { place, reason }, "")
    }
}

#[test]
fn files_cut_at_each_octet(rt: HostRuntime) -> Result<(), Fail> {
    for file in FILES {
        for size in 0..=file.len() {
            for piece in [1usize, 4096] {
                let (status, output) = expected(file, size);
                let (answer, written) = outcome(&rt, &in_pieces(PCAP, &file[..size], piece))?;
                assert_eq!(rt; answer, status, "{size}");
                assert_eq!(rt; written.as_slice(), output.as_bytes(), "{size}");
            }
        }
    }
    Ok(())
}

// A second read that fails within a packet and behind one, and a first write that fails.
#[test]
fn a_read_or_a_write_of_packets_fails(rt: HostRuntime) -> Result<(), Fail> {
    let reads: (&[u64], &[u64]) = (&[1], &[]);
    let writes: (&[u64], &[u64]) = (&[], &[0]);
    let cases = [
        (53usize, reads, Status::ReadFault, ""),
        (54, reads, Status::ReadFault, LISTING),
        (4096, writes, Status::WriteFault, ""),
    ];
    for (piece, (failing_reads, failing_writes), status, output) in cases {
        let case = Case {
            failing_reads,
            failing_writes,
            ..in_pieces(PCAP, FILES[0], piece)
        };
        let (answer, written) = outcome(&rt, &case)?;
        assert_eq!(rt; answer, status, "{piece}");
        assert_eq!(rt; written.as_slice(), output.as_bytes(), "{piece}");
    }
    Ok(())
}
