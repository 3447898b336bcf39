//! Frames that are spelled again.

use gp_base::Octets;
use gp_frames::{decode, encode, valid};
use std::test::Fail;

// Frames of each shape are spelled again as the octets that they were read from, and values of no shape are not valid.
#[test]
fn round_trips(rt: HostRuntime) -> Result<(), Fail> {
    let frames = [
        "01080AFFFFFFFF8C002143658720",
        "01080CFFFFFFFF0C2143658721",
        "01080DFFFFFFFF0DE305",
        "01080FFFFFFFFF4DE305",
        "010810FFFFFFFF8D4007000000E305",
        "010811FFFFFFFF8C302143658702000000220A0B0C0D",
        "010812FFFFFFFF8CF821436587030000003E5A10A0B0C0D0",
    ];
    for digits in frames {
        let octets = hex::decode(rt.alloc(), digits)?;
        let mut mpdu = decode(&octets).ok().ok_or("a frame")?;
        assert!(rt; valid(&mpdu), "{digits}");
        assert_eq!(rt; encode(&mpdu).as_slice(), octets.as_slice(), "{digits}");
        mpdu.frame.body = Octets::new();
        assert!(rt; !valid(&mpdu), "{digits} without its command");
    }
    Ok(())
}
