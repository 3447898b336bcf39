//! The worked examples of the listing, in pieces of one octet and in large ones.

use super::{in_pieces, outcome};
use gp_app::Status;
use gp_script::LineReason;
use std::test::Fail;

const TEXT: &[&str] = &["decode"];

const JSON: &[&str] = &["decode", "--json"];

// The first line that has none of the forms.
const BAD_LINE: Status = Status::BadLine {
    line: 1,
    reason: LineReason::Form,
};

// Arguments, input, status and output.
const ROWS: [(&[&str], &str, Status, &str); 16] = [
    (
        TEXT,
        "01080AFFFFFFFF8C002143658720",
        Status::Done,
        "data seq=0A pan=FFFF dest=FFFF auto=0 ext=00 src=87654321 counter=- body=20 mic=- read=Plain tag=-\n",
    ),
    (
        JSON,
        "01080AFFFFFFFF8C002143658720",
        Status::Done,
        "{\"auto\":false,\"body\":\"20\",\"command\":{\"id\":32,\"kind\":\"Plain\",\"rest\":\"\"},\"counter\":null,\"dest\":\"FFFF\",\"ext\":\"00\",\"kind\":\"data\",\"mic\":null,\"pan\":\"FFFF\",\"seq\":\"0A\",\"src\":\"87654321\",\"tag\":null}\n",
    ),
    (
        TEXT,
        "01080AFFFFFFFF8C0021436587",
        Status::Done,
        "bad NoCommand 13\n",
    ),
    (TEXT, "\n", Status::Done, "bad Short 0\n"),
    (TEXT, "", Status::Done, ""),
    (
        TEXT,
        "01080AFFFFFFFF8C082143658720",
        Status::Done,
        "bad LevelOne 8\n",
    ),
    (
        TEXT,
        "01080AFFFFFFFF8C122143658720",
        Status::Done,
        "bad AppId 8\n",
    ),
    (
        TEXT,
        "zcl 110000804421436587020000002000341255",
        Status::Done,
        "notification seq=00 quiet=1 options=4480 src=87654321 counter=2 command=20 payload=- proxy=1234 link=55\n",
    ),
    (
        TEXT,
        "zcl 1100008044214365870200000020FF341255",
        Status::Done,
        "notification seq=00 quiet=1 options=4480 src=87654321 counter=2 command=20 payload=none proxy=1234 link=55\n",
    ),
    (
        TEXT,
        "zcl 1100008044214365870200000020003412",
        Status::Done,
        "bad Short 17\n",
    ),
    (
        TEXT,
        "zcl 11000080442143658702000000200034125500",
        Status::Done,
        "bad Trailing 18\n",
    ),
    (&["decode", "xyz"], "20", Status::Usage, ""),
    (TEXT, "0G", BAD_LINE, ""),
    (
        TEXT,
        "01080AFFFFFFFF8C0021436587E00285F2C0C1C2C3C4C5C6C7C8C9CACBCCCDCECF1112131405000000040420212223",
        Status::Done,
        "data seq=0A pan=FFFF dest=FFFF auto=0 ext=00 src=87654321 counter=- body=E00285F2C0C1C2C3C4C5C6C7C8C9CACBCCCDCECF1112131405000000040420212223 mic=- read=Commissioning tag=-\n",
    ),
    (
        TEXT,
        "01080AFFFFFFFF8C0021436587E00285F2C0C1C2C3C4C5C6C7C8C9CACBCCCDCECF11121314050000000404202122",
        Status::Done,
        "data seq=0A pan=FFFF dest=FFFF auto=0 ext=00 src=87654321 counter=- body=E00285F2C0C1C2C3C4C5C6C7C8C9CACBCCCDCECF11121314050000000404202122 mic=- read=Short:33 tag=-\n",
    ),
    (
        TEXT,
        "01080AFFFFFFFF8C0021436587E00285B1C0C1C2C3C4C5C6C7C8C9CACBCCCDCECF1112131405000000040420212223",
        Status::Done,
        "data seq=0A pan=FFFF dest=FFFF auto=0 ext=00 src=87654321 counter=- body=E00285B1C0C1C2C3C4C5C6C7C8C9CACBCCCDCECF1112131405000000040420212223 mic=- read=ReservedLevel:3 tag=-\n",
    ),
];

#[test]
fn worked_examples(rt: HostRuntime) -> Result<(), Fail> {
    for (arguments, input, status, output) in ROWS {
        for piece in [1usize, 4096] {
            let (answer, written) = outcome(&rt, &in_pieces(arguments, input.as_bytes(), piece))?;
            assert_eq!(rt; answer, status, "{input}");
            assert_eq!(rt; written.as_slice(), output.as_bytes(), "{input}");
        }
    }
    Ok(())
}

// 126 octets of 0 are too many; a frame at level 2 has 125 octets with a body of 104, and with one octet more it is too long.
#[test]
fn the_longest_frames(rt: HostRuntime) -> Result<(), Fail> {
    let zeros = format!(in rt.alloc(); "{:0>252}", "")?;
    let body = format!(in rt.alloc(); "{:2>208}", "")?;
    let longest = format!(in rt.alloc(); "010800FFFFFFFF8C302143658702000000{body}AABBCCDD")?;
    let longer = format!(in rt.alloc(); "{longest}00")?;
    let front = "data seq=00 pan=FFFF dest=FFFF auto=0 ext=30 src=87654321 counter=2";
    let listed = format!(in rt.alloc(); "{front} body={body} mic=AABBCCDD read=Plain tag=-\n")?;
    let too_long = "bad TooLong 125\n";
    for (input, output) in [
        (&zeros, too_long),
        (&longest, listed.as_str()),
        (&longer, too_long),
    ] {
        let (answer, written) = outcome(&rt, &in_pieces(TEXT, input.as_bytes(), 4096))?;
        assert_eq!(rt; answer, Status::Done);
        assert_eq!(rt; written.as_slice(), output.as_bytes());
    }
    Ok(())
}
