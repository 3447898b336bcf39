//! What no clause says: values from the formats, and that the calls succeed.

use gp_base::{Key, Octets};
use gp_commands::{CommandReason, Commissioning, GpdCommand, Reply, read, sound, write};
use std::process::Abort;

/// Identifiers whose payloads are alike: a whole payload, and the lengths of the fronts of it that read; the
/// others end too early.
struct Case {
    first: u8,
    last: u8,
    payload: &'static [u8],
    readable: &'static [usize],
}

const COMMISSIONING: [u8; 33] = [
    0x02, 0x85, 0xF2, 0xC0, 0xC1, 0xC2, 0xC3, 0xC4, 0xC5, 0xC6, 0xC7, 0xC8, 0xC9, 0xCA, 0xCB, 0xCC,
    0xCD, 0xCE, 0xCF, 0x11, 0x12, 0x13, 0x14, 0x05, 0x00, 0x00, 0x00, 0x04, 0x04, 0x20, 0x21, 0x22,
    0x23,
];

const REPLY: [u8; 27] = [
    0x57, 0x34, 0x12, 0xC0, 0xC1, 0xC2, 0xC3, 0xC4, 0xC5, 0xC6, 0xC7, 0xC8, 0xC9, 0xCA, 0xCB, 0xCC,
    0xCD, 0xCE, 0xCF, 0x11, 0x12, 0x13, 0x14, 0x05, 0x00, 0x00, 0x00,
];

const CASES: [Case; 26] = [
    Case {
        first: 0x00,
        last: 0x00,
        payload: &[],
        readable: &[0],
    },
    Case {
        first: 0x01,
        last: 0x0F,
        payload: &[0xAA],
        readable: &[0, 1],
    },
    Case {
        first: 0x10,
        last: 0x1F,
        payload: &[],
        readable: &[0],
    },
    Case {
        first: 0x20,
        last: 0x23,
        payload: &[],
        readable: &[0],
    },
    Case {
        first: 0x24,
        last: 0x2F,
        payload: &[0xAA],
        readable: &[0, 1],
    },
    Case {
        first: 0x30,
        last: 0x31,
        payload: &[0x05],
        readable: &[0, 1],
    },
    Case {
        first: 0x32,
        last: 0x33,
        payload: &[0x10, 0x0A, 0x00],
        readable: &[1, 2, 3],
    },
    Case {
        first: 0x34,
        last: 0x34,
        payload: &[],
        readable: &[0],
    },
    Case {
        first: 0x35,
        last: 0x36,
        payload: &[0x05],
        readable: &[0, 1],
    },
    Case {
        first: 0x37,
        last: 0x38,
        payload: &[0x10, 0x0A, 0x00],
        readable: &[1, 2, 3],
    },
    Case {
        first: 0x39,
        last: 0x4F,
        payload: &[0xAA],
        readable: &[0, 1],
    },
    Case {
        first: 0x50,
        last: 0x51,
        payload: &[],
        readable: &[0],
    },
    Case {
        first: 0x52,
        last: 0x5F,
        payload: &[0xAA],
        readable: &[0, 1],
    },
    Case {
        first: 0x60,
        last: 0x68,
        payload: &[],
        readable: &[0],
    },
    Case {
        first: 0x69,
        last: 0x6A,
        payload: &[0x81],
        readable: &[1],
    },
    Case {
        first: 0x6B,
        last: 0x9F,
        payload: &[0xAA],
        readable: &[0, 1],
    },
    Case {
        first: 0xA0,
        last: 0xA0,
        payload: &[0x02, 0x04, 0x00, 0x00, 0x29, 0x0A, 0x00],
        readable: &[2, 7],
    },
    Case {
        first: 0xA1,
        last: 0xDF,
        payload: &[0xAA],
        readable: &[0, 1],
    },
    Case {
        first: 0xE0,
        last: 0xE0,
        payload: &COMMISSIONING,
        readable: &[33],
    },
    Case {
        first: 0xE1,
        last: 0xE2,
        payload: &[],
        readable: &[0],
    },
    Case {
        first: 0xE3,
        last: 0xE3,
        payload: &[0x54],
        readable: &[1],
    },
    Case {
        first: 0xE4,
        last: 0xEF,
        payload: &[0xAA],
        readable: &[0, 1],
    },
    Case {
        first: 0xF0,
        last: 0xF0,
        payload: &REPLY,
        readable: &[27],
    },
    Case {
        first: 0xF1,
        last: 0xF2,
        payload: &[0xAA],
        readable: &[0, 1],
    },
    Case {
        first: 0xF3,
        last: 0xF3,
        payload: &[0x1B],
        readable: &[1],
    },
    Case {
        first: 0xF4,
        last: 0xFF,
        payload: &[0xAA],
        readable: &[0, 1],
    },
];

/// The identifier and the first octets of a payload.
fn input(id: u8, payload: &[u8], count: usize) -> Octets {
    let mut octets = Octets::new();
    let _ = octets.push(id);
    for octet in payload.iter().take(count) {
        let _ = octets.push(*octet);
    }
    octets
}

/// What octets read as, of which there are at most 117.
fn read_checked(rt: &impl Abort, octets: &[u8]) -> Result<GpdCommand, CommandReason> {
    assert!(rt; octets.len() <= 117);
    read(octets)
}

/// The name of the variant as which an identifier with its payload reads.
fn variant_by_table(id: u8) -> &'static str {
    match id {
        0x00 | 0x10..=0x1F | 0x20..=0x23 | 0x34 | 0x50..=0x51 | 0x60..=0x68 | 0xE1..=0xE2 => {
            "Plain"
        }
        0x30..=0x31 | 0x35..=0x36 => "Move",
        0x32..=0x33 | 0x37..=0x38 => "Step",
        0x69..=0x6A => "Vector",
        0xA0 => "Report",
        0xE0 => "Commissioning",
        0xE3 => "ChannelRequest",
        0xF0 => "Reply",
        0xF3 => "ChannelConfig",
        _ => "Other",
    }
}

fn variant_of(command: &GpdCommand) -> &'static str {
    match command {
        GpdCommand::Plain { .. } => "Plain",
        GpdCommand::Move { .. } => "Move",
        GpdCommand::Step { .. } => "Step",
        GpdCommand::Vector { .. } => "Vector",
        GpdCommand::Report { .. } => "Report",
        GpdCommand::Commissioning(_) => "Commissioning",
        GpdCommand::Reply(_) => "Reply",
        GpdCommand::ChannelRequest { .. } => "ChannelRequest",
        GpdCommand::ChannelConfig { .. } => "ChannelConfig",
        GpdCommand::Other { .. } => "Other",
    }
}

#[test]
fn every_identifier(rt: HostRuntime) {
    let mut next = 0;
    for case in &CASES {
        assert_eq!(rt; case.first as u16, next);
        next = case.last as u16 + 1;
        for id in case.first..=case.last {
            for count in 0..=case.payload.len() {
                let octets = input(id, case.payload, count);
                match read_checked(&rt, octets.as_slice()) {
                    Ok(command) => {
                        assert!(rt; case.readable.contains(&count), "{id:x} with {count}");
                        assert_eq!(rt; variant_of(&command), variant_by_table(id), "{id:x}");
                        assert!(rt; sound(&command));
                        assert_eq!(rt; write(&command), octets);
                    }
                    Err(reason) => {
                        assert!(rt; !case.readable.contains(&count), "{id:x} with {count}");
                        let place = octets.as_slice().len() as u8;
                        assert_eq!(rt; reason, CommandReason::Short { place });
                    }
                }
            }
        }
    }
    assert_eq!(rt; next, 0x100);
}

/// The size of a value of a type, where a text has so many octets with its length octet.
fn size_by_table(kind: u8, text: usize) -> Option<usize> {
    match kind {
        0x08 | 0x10 | 0x18 | 0x20 | 0x28 | 0x30 => Some(1),
        0x09 | 0x19 | 0x21 | 0x29 | 0x31 | 0x38 | 0xE8 | 0xE9 => Some(2),
        0x0A | 0x1A | 0x22 | 0x2A => Some(3),
        0x0B | 0x1B | 0x23 | 0x2B | 0x39 | 0xE0 | 0xE1 | 0xE2 => Some(4),
        0x0C | 0x1C | 0x24 | 0x2C => Some(5),
        0x0D | 0x1D | 0x25 | 0x2D => Some(6),
        0x0E | 0x1E | 0x26 | 0x2E => Some(7),
        0x0F | 0x1F | 0x27 | 0x2F | 0x3A | 0xF0 => Some(8),
        0x41 | 0x42 => Some(text),
        _ => None,
    }
}

/// A report of one attribute, whose value is the first octets of these.
fn report(kind: u8, value: &[u8], count: usize) -> Octets {
    let mut octets = input(0xA0, &[0x02, 0x04, 0x00, 0x00, kind], 5);
    for octet in value.iter().take(count) {
        let _ = octets.push(*octet);
    }
    octets
}

/// A value of each type reads with as many octets as it has, and with no fewer. The length of a text is once 3 and
/// once FF, which is followed by none.
#[test]
fn every_type_of_value(rt: HostRuntime) {
    let values: [([u8; 8], usize); 2] = [
        ([0x03, 0, 0, 0, 0, 0, 0, 0], 4),
        ([0xFF, 0, 0, 0, 0, 0, 0, 0], 1),
    ];
    for (value, text) in &values {
        for kind in 0..=0xFF {
            let size = size_by_table(kind, *text);
            for count in 0..=8 {
                let octets = report(kind, value, count);
                let place = octets.as_slice().len() as u8;
                match (read_checked(&rt, octets.as_slice()), size) {
                    (Ok(command), Some(size)) => {
                        assert_eq!(rt; count, size, "{kind:x}");
                        assert_eq!(rt; variant_of(&command), "Report");
                    }
                    (Err(reason), Some(size)) => {
                        assert_ne!(rt; count, size, "{kind:x}");
                        if count < size {
                            assert_eq!(rt; reason, CommandReason::Short { place });
                        }
                    }
                    (result, None) => {
                        let ill = Err(CommandReason::ValueKind { place: 5 });
                        assert_eq!(rt; result, ill, "{kind:x}");
                    }
                }
            }
        }
    }
}

#[test]
fn refusals(rt: HostRuntime) {
    let table: [(&[u8], CommandReason); 14] = [
        (&[], CommandReason::Empty),
        (&[0x32], CommandReason::Short { place: 1 }),
        (&[0xE3], CommandReason::Short { place: 1 }),
        (&[0xA0, 0x02], CommandReason::Short { place: 2 }),
        (
            &[0xA0, 0x02, 0x04, 0x00, 0x00],
            CommandReason::Short { place: 5 },
        ),
        (
            &[0xA0, 0x02, 0x04, 0x00, 0x00, 0x00],
            CommandReason::ValueKind { place: 5 },
        ),
        (
            &[0xA0, 0x02, 0x04, 0x00, 0x00, 0x42],
            CommandReason::Short { place: 6 },
        ),
        (
            &[0xA0, 0x02, 0x04, 0x00, 0x00, 0x42, 0x01],
            CommandReason::Short { place: 7 },
        ),
        (
            &[0xA0, 0x02, 0x04, 0x00, 0x00, 0x20, 0x01, 0x01, 0x00, 0x48],
            CommandReason::ValueKind { place: 9 },
        ),
        (&[0xE0, 0x02, 0x80], CommandReason::Short { place: 3 }),
        (&[0xE0, 0x02, 0x80, 0xB1], CommandReason::ReservedLevel),
        (&[0xE0, 0x02, 0x80, 0xB6], CommandReason::ReservedKeyKind),
        (&[0xF0, 0x0A], CommandReason::ReservedLevel),
        (&[0xF0, 0xC0], CommandReason::ReservedKeyKind),
    ];
    for (octets, reason) in table {
        assert_eq!(rt; read_checked(&rt, octets), Err(reason));
    }
}

/// A Commissioning with a wrapped key, a counter and a list of commands.
fn wrapped() -> GpdCommand {
    GpdCommand::Commissioning(Commissioning {
        device: 0x02,
        options: 0x85,
        extended: Some(0xF2),
        key: Some(Key([
            0xC0, 0xC1, 0xC2, 0xC3, 0xC4, 0xC5, 0xC6, 0xC7, 0xC8, 0xC9, 0xCA, 0xCB, 0xCC, 0xCD,
            0xCE, 0xCF,
        ])),
        key_mic: Some([0x11, 0x12, 0x13, 0x14]),
        counter: Some(5),
        application: Some(4),
        manufacturer: None,
        model: None,
        commands: Octets::of(&[0x20, 0x21, 0x22, 0x23]),
        clusters: None,
        rest: Octets::new(),
    })
}

#[test]
fn a_commissioning(rt: HostRuntime) {
    let whole = input(0xE0, &COMMISSIONING, 33);
    assert_eq!(rt; read_checked(&rt, whole.as_slice()), Ok(wrapped()));
    let cut = input(0xE0, &COMMISSIONING, 32);
    let place = 33;
    assert_eq!(rt;
        read_checked(&rt, cut.as_slice()),
        Err(CommandReason::Short { place })
    );
    let command = wrapped();
    assert!(rt; sound(&command));
    assert_eq!(rt; write(&command), whole);
}

/// A key kind that is reserved, a key that is wanted and absent: neither has a spelling.
#[test]
fn unsound(rt: HostRuntime) {
    let options = 0x40;
    let reply = |options: u8, key: Option<Key>| {
        GpdCommand::Reply(Reply {
            options,
            pan: None,
            key,
            key_mic: None,
            counter: None,
            rest: Octets::new(),
        })
    };
    assert!(rt; sound(&reply(options, None)));
    assert!(rt; !sound(&reply(0xA0, None)));
    assert!(rt; !sound(&reply(0x42, None)));
    assert!(rt; sound(&reply(0x42, Some(Key([0; 16])))));
}
