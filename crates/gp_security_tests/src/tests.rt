//! What no clause says: values of another implementation (AES-128 of OpenSSL under the chain of RFC 3610), and that the
//! calls succeed.

ghost use Rattle.std.specs.Prelude.{◌≡◌, ◌<◌, ◌+◌, ◌≤◌, ◌⊎◌, false, length, IsTrue, is_some};
ghost use Rattle.gp_frames.specs.Frame.{header, level_of};
ghost use Rattle.gp_security.specs.Protection.{IsHead};

use gp_base::{Key, Octets, Src, Steps};
use gp_cluster::{Cluster, Zcl, decode as cluster_decode};
use gp_frames::{Ext, Gpdf, Mpdu, decode, encode};
use gp_security::{
    BadTag, Way, Wrapped, from_notice, seal_frame, unseal_frame, unwrap_key, wrap_key,
};
use std::marker::Brand;
use std::process::Abort;
use std::sync::ledger::{Blank, Ledger};

const KEY: Key = Key([
    0xC0, 0xC1, 0xC2, 0xC3, 0xC4, 0xC5, 0xC6, 0xC7, 0xC8, 0xC9, 0xCA, 0xCB, 0xCC, 0xCD, 0xCE, 0xCF,
]);

/// The default link key, the ASCII text `ZigBeeAlliance09`.
const LINK: Key = Key([
    0x5A, 0x69, 0x67, 0x42, 0x65, 0x65, 0x41, 0x6C, 0x6C, 0x69, 0x61, 0x6E, 0x63, 0x65, 0x30, 0x39,
]);

const SOURCE: Src = Src(0x8765_4321);

/// A frame with counter 2, without a command yet.
fn head(level: u8, individual: bool, to_device: bool) -> Mpdu
    ensures data_frame { result.frame.maintenance ≡ false }
    ensures level { level_of result.frame ≡ level }
    ensures src { IsTrue (is_some result.frame.src) }
    ensures counter { IsTrue (is_some result.frame.counter) }
    ensures size { length (header result.frame) ≡ 10 }
{
    let ext = Some(Ext {
        level,
        individual,
        rx_after: false,
        to_device,
    });
    Mpdu {
        seq: 1,
        pan: 0xFFFF,
        dest: 0xFFFF,
        frame: Gpdf {
            maintenance: false,
            auto: false,
            ext,
            src: Some(SOURCE),
            counter: Some(2),
            body: Octets::new(),
            mic: None,
        },
    }
}

/// The command that octets carry under a key, where they are a secured frame and the MIC is right.
fn opened<L: Ledger>(octets: &[u8], key: &Key, steps: &mut Steps<L>) -> Option<Octets> {
    let Ok(mpdu) = decode(octets) else {
        return None;
    };
    if mpdu.frame.level() < 2 {
        return None;
    }
    unseal_frame(&mpdu.frame, key, steps).ok()
}

/// A frame is sealed so, and opened again; with any bit of its MIC changed, or under another key, it isn't.
fn check<L: Ledger>(
    rt: &impl Abort,
    level: u8,
    command: &[u8],
    body: &[u8],
    mic: [u8; 4],
    blank: Blank,
)
    requires level { (level ≡ 2) ⊎ (level ≡ 3) }
    requires name { blank.name ≡ L.name }
    requires parts { blank.parts ≡ L.parts }
    requires some { 0 < L.parts }
{
    let mut steps = Steps::<L>::new(blank);
    assert!(rt; !command.is_empty() && command.len() <= 104);
    let sealed = seal_frame(&head(level, true, false), command, &KEY, &mut steps);
    assert_eq!(rt; sealed.frame.body.as_slice(), body);
    assert_eq!(rt; sealed.frame.mic, Some(mic));
    let octets = encode(&sealed);
    let read = opened(octets.as_slice(), &KEY, &mut steps);
    assert!(rt; read.is_some_and(|found| found.as_slice() == command));
    assert!(rt; opened(octets.as_slice(), &LINK, &mut steps).is_none());
    for bit in 0..32u32 {
        let wrong = with_bit(octets.as_slice(), bit);
        assert!(rt; opened(wrong.as_slice(), &KEY, &mut steps).is_none());
    }
}

/// Octets with one bit of the last four changed.
fn with_bit(octets: &[u8], bit: u32) -> Octets {
    let mut changed = Octets::new();
    for (place, octet) in octets.iter().enumerate() {
        let behind = octets.len() - place;
        let turned = behind <= 4 && behind - 1 == (bit / 8) as usize;
        let _ = changed.push(if turned {
            octet ^ (1u8 << (bit % 8))
        } else {
            *octet
        });
    }
    changed
}

/// A command of so many octets: 20, 21, 22 and so on.
fn command(count: u8) -> Octets {
    let mut octets = Octets::new();
    for octet in 0..count {
        let _ = octets.push(octet.wrapping_add(0x20));
    }
    octets
}

/// 104 octets encrypted; what begins as they do is encrypted as their beginning is.
const LONGEST: [u8; 104] = [
    0x83, 0x2C, 0x29, 0xF7, 0x99, 0xF4, 0x96, 0xE5, 0xFE, 0x7F, 0xE2, 0x41, 0xA1, 0xEC, 0x9C, 0xA2,
    0x2C, 0x35, 0x5B, 0xE6, 0x0A, 0xF4, 0xF4, 0x61, 0x0A, 0x16, 0x2A, 0xE1, 0x4B, 0x60, 0xA7, 0xB5,
    0xED, 0x75, 0x2F, 0x0D, 0x51, 0x48, 0xF7, 0xC2, 0x22, 0x4D, 0x6E, 0x68, 0x5D, 0x52, 0xC6, 0xC5,
    0x81, 0x45, 0x6E, 0x1F, 0x13, 0x76, 0x06, 0x49, 0x81, 0xE4, 0xC5, 0xF2, 0xDA, 0xD7, 0x61, 0xFE,
    0xE1, 0xD6, 0xBA, 0x4E, 0x8B, 0x1F, 0x13, 0x32, 0x46, 0x95, 0xBA, 0x96, 0x78, 0xDE, 0x1A, 0x40,
    0x7B, 0xB9, 0x38, 0x65, 0xD6, 0x5F, 0x75, 0x00, 0x65, 0xF9, 0x74, 0x93, 0x8A, 0x82, 0xE4, 0x49,
    0x34, 0x94, 0x75, 0x18, 0x41, 0x3A, 0x82, 0x9D,
];

#[test]
fn frames_at_both_levels(rt: HostRuntime) {
    let cases = [
        (2, 1, [0xAD, 0x69, 0xA9, 0x78]),
        (2, 15, [0x47, 0xE1, 0xAB, 0x75]),
        (2, 16, [0x21, 0x1C, 0x28, 0x09]),
        (2, 17, [0x7F, 0x11, 0xB0, 0x31]),
        (2, 104, [0xD8, 0x34, 0xD4, 0x4C]),
        (3, 1, [0x5F, 0x1A, 0x30, 0x34]),
        (3, 15, [0x82, 0x0A, 0xF1, 0x8F]),
        (3, 16, [0x08, 0x00, 0x4C, 0x00]),
        (3, 17, [0xBC, 0x32, 0xEA, 0xF0]),
        (3, 104, [0xC5, 0x3E, 0x1A, 0x4B]),
    ];
    for (level, count, mic) in cases {
        assert!(rt; (level == 2 || level == 3) && count <= 104);
        let command = command(count);
        let body = if level == 3 {
            &LONGEST[..count as usize]
        } else {
            command.as_slice()
        };
        check::<Brand>(&rt, level, command.as_slice(), body, mic, Blank::new(1));
    }
}

/// The longest command at level 3 takes 17 calls of the block cipher.
fn longest_at_three<L: Ledger>(command: &[u8], steps: &mut Steps<L>) -> Mpdu
    requires { length command.now ≡ 104 }
    ensures { steps.new ≡ steps.old + 17 }
{
    seal_frame(&head(3, true, false), command, &KEY, steps)
}

/// At level 2 it takes ten.
fn longest_at_two<L: Ledger>(command: &[u8], steps: &mut Steps<L>) -> Mpdu
    requires { length command.now ≡ 104 }
    ensures { steps.new ≡ steps.old + 10 }
{
    seal_frame(&head(2, true, false), command, &KEY, steps)
}

/// A wrapped key takes five.
fn one_key<L: Ledger>(steps: &mut Steps<L>) -> Wrapped
    ensures { steps.new ≡ steps.old + 5 }
{
    wrap_key(&LINK, SOURCE, Way::FromDevice, &KEY, steps)
}

/// How often the block cipher is called is what the clauses of these functions say, whatever they answer.
fn counted<L: Ledger>(blank: Blank) -> (Mpdu, Mpdu, Wrapped)
    requires name { blank.name ≡ L.name }
    requires parts { blank.parts ≡ L.parts }
    requires some { 0 < L.parts }
{
    let mut steps = Steps::<L>::new(blank);
    let three = longest_at_three(&LONGEST, &mut steps);
    let two = longest_at_two(&LONGEST, &mut steps);
    let key = one_key(&mut steps);
    (three, two, key)
}

#[test]
fn counts(rt: HostRuntime) {
    let (three, two, key) = counted::<Brand>(Blank::new(1));
    assert_ne!(rt; three.frame.body, two.frame.body);
    assert_ne!(rt; key.key, KEY);
}

/// A frame to the device, and one under a key of several devices.
#[test]
fn both_ways_and_kinds(rt: HostRuntime) {
    let cases: [(u8, bool, bool, u8, [u8; 4]); 4] = [
        (2, false, false, 0x20, [0xCF, 0x78, 0x7E, 0x72]),
        (3, false, false, 0x83, [0xCA, 0x43, 0x24, 0xDD]),
        (2, true, true, 0x20, [0x73, 0x70, 0x38, 0xB2]),
        (3, true, true, 0x01, [0x93, 0x2E, 0x36, 0x73]),
    ];
    for (level, individual, to_device, body, mic) in cases {
        assert!(rt; level == 2 || level == 3);
        let sealed = off::<Brand>(&head(level, individual, to_device), Blank::new(1));
        assert_eq!(rt; sealed.frame.body.as_slice(), [body].as_slice());
        assert_eq!(rt; sealed.frame.mic, Some(mic));
    }
}

/// An Off command, sealed.
fn off<L: Ledger>(head: &Mpdu, blank: Blank) -> Mpdu
    requires head { IsHead head.now.frame }
    requires name { blank.name ≡ L.name }
    requires parts { blank.parts ≡ L.parts }
    requires some { 0 < L.parts }
{
    let mut steps = Steps::<L>::new(blank);
    seal_frame(head, &[0x20], &KEY, &mut steps)
}

/// A key is wrapped so, and unwrapped again; not the other way, for another device or with a bit of it changed.
fn check_key<L: Ledger>(rt: &impl Abort, way: Way, wrapped: Wrapped, blank: Blank)
    requires name { blank.name ≡ L.name }
    requires parts { blank.parts ≡ L.parts }
    requires some { 0 < L.parts }
{
    let mut steps = Steps::<L>::new(blank);
    assert_eq!(rt; wrap_key(&LINK, SOURCE, way, &KEY, &mut steps), wrapped);
    assert_eq!(rt;
        unwrap_key(&LINK, SOURCE, way, &wrapped, &mut steps),
        Ok(KEY)
    );
    let other = Way::ToDevice { counter: 7 };
    assert_eq!(rt;
        unwrap_key(&LINK, SOURCE, other, &wrapped, &mut steps),
        Err(BadTag)
    );
    assert_eq!(rt;
        unwrap_key(&LINK, Src(1), way, &wrapped, &mut steps),
        Err(BadTag)
    );
    let mut wrong = wrapped;
    wrong.mic[3] ^= 1;
    assert_eq!(rt;
        unwrap_key(&LINK, SOURCE, way, &wrong, &mut steps),
        Err(BadTag)
    );
    let mut wrong = wrapped;
    wrong.key.0[0] ^= 0x80;
    assert_eq!(rt;
        unwrap_key(&LINK, SOURCE, way, &wrong, &mut steps),
        Err(BadTag)
    );
}

#[test]
fn keys_both_ways(rt: HostRuntime) {
    let from = Wrapped {
        key: Key([
            0xFF, 0x66, 0xB4, 0x8A, 0x56, 0x41, 0x52, 0x0B, 0x85, 0x05, 0x01, 0xE6, 0xA9, 0x9C,
            0xE6, 0xD0,
        ]),
        mic: [0x01, 0xA9, 0xF9, 0x75],
    };
    check_key::<Brand>(&rt, Way::FromDevice, from, Blank::new(1));
    let to = Wrapped {
        key: Key([
            0xE0, 0x7D, 0xEB, 0x59, 0x57, 0x89, 0xAC, 0x65, 0x99, 0x8F, 0x93, 0xC7, 0x7E, 0xC0,
            0x51, 0x00,
        ]),
        mic: [0x01, 0xC5, 0xA2, 0x5A],
    };
    check_key::<Brand>(&rt, Way::ToDevice { counter: 6 }, to, Blank::new(1));
}

/// Octets that decode to a Commissioning Notification of an Off command with so many payload octets: sequence 0, source
/// 87654321, counter 2.
fn notice_octets(options: u16, payload: Option<u8>) -> Octets {
    let [low, high] = options.to_le_bytes();
    let mut octets = Octets::new();
    for octet in [
        0x11, 0, 0x04, low, high, 0x21, 0x43, 0x65, 0x87, 2, 0, 0, 0, 0x20,
    ] {
        let _ = octets.push(octet);
    }
    let _ = octets.push(payload.unwrap_or(0xFF));
    for octet in 0..payload.unwrap_or(0) {
        let _ = octets.push(octet);
    }
    if options / 0x200 % 2 == 1 {
        for octet in [1, 2, 3, 4] {
            let _ = octets.push(octet);
        }
    }
    octets
}

/// The frame that octets report, where they are a Commissioning Notification that reports one.
fn reported(octets: &[u8]) -> Option<Gpdf> {
    match cluster_decode(octets) {
        Ok(
            Zcl {
                body: Cluster::CommissioningNotice(notice),
                ..
            },
        ) => from_notice(&notice),
        _ => None,
    }
}

#[test]
fn notifications_of_frames(rt: HostRuntime) {
    // Bit 9, level, and at most 103 octets of payload.
    let cases: [(u16, Option<u8>, bool); 9] = [
        (0x0230, Some(0), true),
        (0x0220, Some(103), true),
        (0x0230, None, true),
        (0x0030, Some(0), false),
        (0x0200, Some(0), false),
        (0x0210, Some(0), false),
        (0x0230, Some(104), false),
        (0x0220, Some(104), false),
        (0x0000, None, false),
    ];
    for (options, payload, told) in cases {
        let octets = notice_octets(options, payload);
        assert_eq!(rt; reported(octets.as_slice()).is_some(), told);
    }
}

#[test]
fn the_frame_of_a_notification(rt: HostRuntime) {
    // Level 3, RxAfterTx, and each key type: the SecurityKey bit stands for 4 and 7.
    for kind in 0..8u16 {
        let octets = notice_octets(0x0238 + 64 * kind, Some(2));
        let frame = reported(octets.as_slice());
        let body = Octets::of(&[0x20, 0, 1]).unwrap_or(Octets::new());
        let ext = Ext {
            level: 3,
            individual: kind == 4 || kind == 7,
            rx_after: true,
            to_device: false,
        };
        let wanted = Gpdf {
            maintenance: false,
            auto: false,
            ext: Some(ext),
            src: Some(SOURCE),
            counter: Some(2),
            body,
            mic: Some([1, 2, 3, 4]),
        };
        assert_eq!(rt; frame, Some(wanted));
    }
}
