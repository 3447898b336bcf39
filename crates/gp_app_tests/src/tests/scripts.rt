//! A script in pieces of one octet and in one, and reads and writes that fail.

use super::{Case, in_pieces, outcome};
use gp_app::Status;
use std::test::Fail;

const SIM: &[&str] = &["sim"];

// A sink, its device, one press, and its frame twice.
const SCRIPT: &[u8] =
    b"0 sink s1 0001 0000000000000001 derived 11 - D0D1D2D3D4D5D6D7D8D9DADBDCDDDEDF\n0 pair s1 87654321 C0C1C2C3C4C5C6C7C8C9CACBCCCDCECF 4 2 02 1\n0 device d1 87654321 C0C1C2C3C4C5C6C7C8C9CACBCCCDCECF 4 2 02 1\n10 press d1 20\n20 hear 0 s1 40\n30 hear 0 s1 40\n";

// What is reported of the first four lines, and of all.
const PRESSED: &str =
    "2 s1 paired 0 87654321 1\n2 s1 put 0 all 19000128E4002143658721430201000000C0C1C2C3C4C5C6C7C8C9CACBCCCDCECF\n4 d1 air 0 010800FFFFFFFF8C30214365870200000020AD69A978\n";

const REPORT: &str =
    "2 s1 paired 0 87654321 1\n2 s1 put 0 all 19000128E4002143658721430201000000C0C1C2C3C4C5C6C7C8C9CACBCCCDCECF\n4 d1 air 0 010800FFFFFFFF8C30214365870200000020AD69A978\n5 s1 acted 0 87654321 2 20 1\n5 s1 zcl 01 0006 0 00 -\n6 s1 drop Stale 2\n";

// So many octets are the first four lines.
const FOUR_LINES: usize = 217;

// The second read fails behind the fourth line, and the first write fails.
#[test]
fn a_script_in_pieces(rt: HostRuntime) -> Result<(), Fail> {
    let good: (&[u64], &[u64]) = (&[], &[]);
    let reads: (&[u64], &[u64]) = (&[1], &[]);
    let writes: (&[u64], &[u64]) = (&[], &[0]);
    let cases = [
        (1usize, good, Status::Done, REPORT),
        (4096, good, Status::Done, REPORT),
        (FOUR_LINES, reads, Status::ReadFault, PRESSED),
        (4096, writes, Status::WriteFault, ""),
    ];
    for (piece, (failing_reads, failing_writes), status, output) in cases {
        let case = Case {
            failing_reads,
            failing_writes,
            ..in_pieces(SIM, SCRIPT, piece)
        };
        let (answer, written) = outcome(&rt, &case)?;
        assert_eq!(rt; answer, status, "{piece}");
        assert_eq!(rt; written.as_slice(), output.as_bytes(), "{piece}");
    }
    Ok(())
}
