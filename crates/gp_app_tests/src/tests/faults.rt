//! Pieces of any size, and reads and writes that fail.

use super::{Case, in_pieces, outcome};
use gp_app::Status;
use std::test::Fail;

// A frame and its listing.
const FRAME: &str = "01080AFFFFFFFF8C002143658720";

const LISTING: &str =
    "data seq=0A pan=FFFF dest=FFFF auto=0 ext=00 src=87654321 counter=- body=20 mic=- read=Plain tag=-\n";

// A second read and a first write that fail; and a second read that fails where the first one gave 1,025 octets without an LF,
// which are too many where the last isn't a CR.
#[test]
fn a_read_or_a_write_fails(rt: HostRuntime) -> Result<(), Fail> {
    let two = format!(in rt.alloc(); "{FRAME}\n{FRAME}\n")?;
    let wide = format!(in rt.alloc(); "{:0>1025}", "")?;
    let full = format!(in rt.alloc(); "{:0>1024}\r", "")?;
    let reads: (&[u64], &[u64]) = (&[1], &[]);
    let writes: (&[u64], &[u64]) = (&[], &[0]);
    let cases = [
        (&two, 29usize, reads, Status::ReadFault, LISTING),
        (&two, 29, writes, Status::WriteFault, ""),
        (&wide, 1025, reads, Status::TooLong, ""),
        (&full, 1025, reads, Status::ReadFault, ""),
    ];
    for (input, piece, (failing_reads, failing_writes), status, output) in cases {
        let case = Case {
            failing_reads,
            failing_writes,
            ..in_pieces(&["decode"], input.as_bytes(), piece)
        };
        let (answer, written) = outcome(&rt, &case)?;
        assert_eq!(rt; answer, status, "{piece}");
        assert_eq!(rt; written.as_slice(), output.as_bytes(), "{piece}");
    }
    Ok(())
}

// Frames and what is none, of each shape, a line each.
const CAPTURE: [&str; 20] = [
    "01080AFFFFFFFF8C002143658720",
    "01080BFFFFFFFF8C402143658720",
    "01080CFFFFFFFF0C2143658721",
    "01080DFFFFFFFF0DE305",
    "01080EFFFFFFFF0DF305",
    "01080FFFFFFFFF4DE305",
    "010810FFFFFFFF8D4007000000E305",
    "010811FFFFFFFF8C302143658702000000220A0B0C0D",
    "010812FFFFFFFF8C3821436587030000003E5A10A0B0C0D0",
    "010813FFFFFFFF8CA021436587F0",
    "0108",
    "0308AAFFFFFFFF8C002143658720",
    "01080AFFFFFFFF8E002143658720",
    "01080AFFFFFFFF88002143658720",
    "01080AFFFFFFFF8C",
    "01080AFFFFFFFF8C012143658720",
    "01080AFFFFFFFF8C082143658720",
    "01080AFFFFFFFF8D302143658702000000220A0B0C0D",
    "01080AFFFFFFFF8C0021436587",
    "0000000000000000000000000000000000000000000000000000000000000000000000000000000000000000000000000000000000000000000000000000000000000000000000000000000000000000000000000000000000000000000000000000000000000000000000000000000000000000000000000000000000000000000000000000",
];

// The octets of the first lines of a text, so many of them.
fn first_lines(rt: &HostRuntime, text: &[u8], lines: u64) -> Result<Vec<u8>, Fail> {
    let mut front = Vec::new(rt.alloc());
    let mut left = lines;
    for octet in text {
        if left > 0 {
            front.push(*octet)?;
            if *octet == b'\n' {
                left -= 1;
            }
        }
    }
    Ok(front)
}

// How many lines end in the first octets of an input, so many of them.
fn lines_ended(input: &[u8], octets: usize) -> u64 {
    let mut ended = 0u64;
    for octet in input.iter().take(octets) {
        if *octet == b'\n' {
            ended = ended.saturating_add(1);
        }
    }
    ended
}

// These lines as an input.
fn capture(rt: &HostRuntime) -> Result<Vec<u8>, Fail> {
    let mut input = Vec::new(rt.alloc());
    for line in CAPTURE {
        input.extend_from_slice(line.as_bytes())?;
        input.push(b'\n')?;
    }
    Ok(input)
}

// The arguments of both forms, the text of whose listing has 20 lines.
const FORMS: [&[&str]; 2] = [&["decode"], &["decode", "--json"]];

// In pieces of one octet it is listed as in large ones.
#[test]
fn pieces_of_one_octet(rt: HostRuntime) -> Result<(), Fail> {
    let input = capture(&rt)?;
    for arguments in FORMS {
        let whole = in_pieces(arguments, &input, 4096);
        let (status, text) = outcome(&rt, &whole)?;
        assert_eq!(rt; status, Status::Done);
        assert_eq!(rt; lines_ended(&text, text.len()), 20);
        let ones = Case { piece: 1, ..whole };
        let (status, in_ones) = outcome(&rt, &ones)?;
        assert_eq!(rt; status, Status::Done);
        assert_eq!(rt; in_ones.as_slice(), text.as_slice());
    }
    Ok(())
}

// Each read fails in turn: the lines that came before it are listed.
#[test]
fn each_read_fails(rt: HostRuntime) -> Result<(), Fail> {
    let input = capture(&rt)?;
    for arguments in FORMS {
        let whole = in_pieces(arguments, &input, 16);
        let (_, text) = outcome(&rt, &whole)?;
        let mut taken = 0usize;
        for failing in 0..60u64 {
            let case = Case {
                failing_reads: &[failing],
                ..whole
            };
            let (status, written) = outcome(&rt, &case)?;
            if taken < input.len().saturating_add(16) {
                let front = first_lines(&rt, &text, lines_ended(&input, taken))?;
                assert_eq!(rt; status, Status::ReadFault, "read {failing}");
                assert_eq!(rt; written.as_slice(), front.as_slice(), "read {failing}");
            } else {
                assert_eq!(rt; status, Status::Done, "read {failing}");
            }
            taken = taken.saturating_add(16);
        }
    }
    Ok(())
}

// Each write fails in turn: a front of the listing was written.
#[test]
fn each_write_fails(rt: HostRuntime) -> Result<(), Fail> {
    let input = capture(&rt)?;
    for arguments in FORMS {
        let whole = in_pieces(arguments, &input, 16);
        let (_, text) = outcome(&rt, &whole)?;
        let mut ended = false;
        for failing in 0..600u64 {
            if !ended {
                let case = Case {
                    failing_writes: &[failing],
                    ..whole
                };
                let (status, written) = outcome(&rt, &case)?;
                ended = status == Status::Done;
                assert!(rt; ended || status == Status::WriteFault, "write {failing}");
                assert!(rt; text.starts_with(&written), "write {failing}");
                assert!(rt; !ended || written.len() == text.len(), "write {failing}");
            }
        }
        assert!(rt; ended, "a run whose writes all succeed");
    }
    Ok(())
}
