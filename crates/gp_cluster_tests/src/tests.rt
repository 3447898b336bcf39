use gp_base::{Key, Octets, Src};
use gp_cluster::options::{ModeOptions, NoticeOptions, NotificationOptions, PairingOptions};
use gp_cluster::{
    Cluster, ClusterReason, CommissioningNotice, Notification, Pairing, ProxyMode, Response, Zcl,
    decode, encode, valid,
};
use std::process::Abort;

const KEY: [u8; 16] = [
    0xC0, 0xC1, 0xC2, 0xC3, 0xC4, 0xC5, 0xC6, 0xC7, 0xC8, 0xC9, 0xCA, 0xCB, 0xCC, 0xCD, 0xCE, 0xCF,
];

const DEVICE: [u8; 4] = [0x21, 0x43, 0x65, 0x87];

/// A Notification of an On command with an empty payload.
const ON: [u8; 18] = [
    0x11, 0x00, 0x00, 0x80, 0x44, 0x21, 0x43, 0x65, 0x87, 0x02, 0x00, 0x00, 0x00, 0x20, 0x00, 0x34,
    0x12, 0x55,
];

/// Octets one after the other.
fn joined(parts: &[&[u8]]) -> Octets {
    let mut octets = Octets::new();
    for part in parts {
        for octet in part.iter() {
            let _ = octets.push(*octet);
        }
    }
    octets
}

/// A field where it is there.
fn field(there: bool, octets: &'static [u8]) -> &'static [u8] {
    if there { octets } else { &[] }
}

/// The octets decode to a value that encodes to them; each front of them ends too early, and one octet more is too
/// many.
fn both_ways(rt: &impl Abort, whole: &Octets) {
    let octets = whole.as_slice();
    let read = decode(octets);
    assert!(rt; read.is_ok(), "{octets:?}");
    if let Ok(message) = read {
        assert!(rt; valid(&message));
        assert_eq!(rt; encode(&message), whole.copy());
    }
    for count in 0..octets.len() {
        let place = count as u8;
        assert_eq!(rt;
            decode(&octets[..count]),
            Err(ClusterReason::Short { place })
        );
    }
    let place = octets.len() as u8;
    let mut longer = whole.copy();
    assert!(rt; longer.push(0xAA));
    assert_eq!(rt;
        decode(longer.as_slice()),
        Err(ClusterReason::Trailing { place })
    );
}

/// A Notification with this octet string.
fn notification_of(payload: &'static [u8], proxy: bool) -> Octets {
    joined(&[
        &[0x01, 0x07, 0x00, 0xF8, 0x3F + 0x40 * u8::from(proxy)],
        &DEVICE,
        &[0x02, 0x00, 0x00, 0x80, 0x69],
        payload,
        field(proxy, &[0x34, 0x12, 0x55]),
    ])
}

/// A Commissioning Notification with this octet string.
fn notice_of(payload: &'static [u8], proxy: bool, failed: bool) -> Octets {
    let second = 0xF5 + 0x02 * u8::from(failed) + 0x08 * u8::from(proxy);
    joined(&[
        &[0x11, 0xFF, 0x04, 0xF8, second],
        &DEVICE,
        &[0x02, 0x01, 0x00, 0x00, 0xE0],
        payload,
        field(proxy, &[0x34, 0x12, 0x55]),
        field(failed, &[0x71, 0x72, 0x73, 0x74]),
    ])
}

#[test]
fn every_notification(rt: HostRuntime) {
    for proxy in [false, true] {
        both_ways(&rt, &notification_of(&[0x00], proxy));
        both_ways(&rt, &notification_of(&[0xFF], proxy));
        both_ways(&rt, &notification_of(&[0x01, 0xFF], proxy));
        both_ways(&rt, &notification_of(&[0x03, 0x01, 0x02, 0x03], proxy));
        for failed in [false, true] {
            both_ways(&rt, &notice_of(&[0x00], proxy, failed));
            both_ways(&rt, &notice_of(&[0xFF], proxy, failed));
            both_ways(&rt, &notice_of(&[0x02, 0x03, 0x04], proxy, failed));
        }
    }
}

/// The Pairing of these options, with each field that they announce.
fn pairing_of(adds: bool, removes: bool, mode: u8, extras: u8) -> Octets {
    let counter = extras % 2;
    let key = extras / 2 % 2;
    let alias = extras / 4 % 2;
    let radius = extras / 8 % 2;
    let first = 0x80 + 0x08 * u8::from(adds) + 0x10 * u8::from(removes) + 0x20 * (mode % 4);
    joined(&[
        &[0x09, 0x07, 0x01],
        &[
            first,
            0x25 + 0x40 * counter + 0x80 * key,
            alias + 2 * radius,
        ],
        &DEVICE,
        field(
            !removes && mode == 3,
            &[0x01, 0x02, 0x03, 0x04, 0x05, 0x06, 0x07, 0x88, 0x0A, 0x0B],
        ),
        field(!removes && (mode == 1 || mode == 2), &[0x21, 0x43]),
        field(adds, &[0x02]),
        field(counter == 1, &[0xFF, 0xFF, 0xFF, 0xFF]),
        field(key == 1, &KEY),
        field(alias == 1, &[0xCD, 0xAB]),
        field(radius == 1, &[0x1E]),
    ])
}

#[test]
fn every_pairing(rt: HostRuntime) {
    for extras in 0..16u8 {
        for mode in 0..4u8 {
            for bits in 0..4u8 {
                let adds = bits % 2 == 1;
                let removes = bits / 2 == 1;
                let octets = pairing_of(adds, removes, mode, extras);
                if !removes && mode == 0 {
                    let place = 3;
                    assert_eq!(rt;
                        decode(octets.as_slice()),
                        Err(ClusterReason::Mode { place })
                    );
                } else {
                    both_ways(&rt, &octets);
                }
            }
        }
    }
}

#[test]
fn every_mode_and_response(rt: HostRuntime) {
    for bits in 0..4u8 {
        let window = bits % 2;
        let channel = bits / 2;
        let octets = joined(&[
            &[0x19, 0x00, 0x02, 0xED + 0x02 * window + 0x10 * channel],
            field(window == 1, &[0xB4, 0x00]),
            field(channel == 1, &[0x0B]),
        ]);
        both_ways(&rt, &octets);
    }
    let payloads: [&[u8]; 3] = [&[0x00], &[0xFF], &[0x01, 0x10]];
    for payload in payloads {
        let octets = joined(&[
            &[0x19, 0x02, 0x06, 0xF8, 0x11, 0x00, 0x0F],
            &DEVICE,
            &[0xF3],
            payload,
        ]);
        both_ways(&rt, &octets);
    }
}

/// The value of octets.
fn reads_as(rt: &impl Abort, octets: &[u8], message: Zcl) {
    assert_eq!(rt; decode(octets), Ok(message));
}

/// The value of the Notification of an On command, with this payload.
fn on(payload: Option<Octets>) -> Zcl {
    Zcl {
        quiet: true,
        sequence: 0,
        body: Cluster::Notification(Notification {
            options: 0x4480,
            src: Src(0x8765_4321),
            counter: 2,
            command: 0x20,
            payload,
            proxy: Some((0x1234, 0x55)),
        }),
    }
}

#[test]
fn a_notification(rt: HostRuntime) {
    reads_as(&rt, &ON, on(Some(Octets::new())));
    let mut unspecified = ON;
    unspecified[14] = 0xFF;
    reads_as(&rt, &unspecified, on(None));
    let place = 17;
    assert_eq!(rt; decode(&ON[..17]), Err(ClusterReason::Short { place }));
    let place = 18;
    let longer = joined(&[&ON, &[0x00]]);
    assert_eq!(rt;
        decode(longer.as_slice()),
        Err(ClusterReason::Trailing { place })
    );
}

#[test]
fn a_mode_and_a_response(rt: HostRuntime) {
    let mode = ProxyMode {
        options: 0x23,
        window: Some(180),
        channel: None,
    };
    reads_as(
        &rt,
        &[0x19, 0x00, 0x02, 0x23, 0xB4, 0x00],
        Zcl {
            quiet: true,
            sequence: 0,
            body: Cluster::ProxyMode(mode),
        },
    );
    let response = Response {
        options: 0,
        master: 0x0011,
        channel: 0x0F,
        src: Src(7),
        command: 0xF3,
        payload: Octets::of(&[0x10]),
    };
    reads_as(
        &rt,
        &[
            0x19, 0x02, 0x06, 0x00, 0x11, 0x00, 0x0F, 0x07, 0x00, 0x00, 0x00, 0xF3, 0x01, 0x10,
        ],
        Zcl {
            quiet: true,
            sequence: 2,
            body: Cluster::Response(response),
        },
    );
}

/// The value of a Pairing with the key, and a sink or a group.
fn paired(options: u32, sink: Option<(u64, u16)>, group: Option<u16>) -> Zcl {
    Zcl {
        quiet: true,
        sequence: 0,
        body: Cluster::Pairing(Pairing {
            options,
            src: Src(0x8765_4321),
            sink,
            group,
            device: Some(2),
            counter: Some(1),
            key: Some(Key(KEY)),
            alias: None,
            radius: None,
        }),
    }
}

#[test]
fn pairings_with_a_key(rt: HostRuntime) {
    let group = joined(&[
        &[0x19, 0x00, 0x01, 0x28, 0xE4, 0x00],
        &DEVICE,
        &[0x21, 0x43, 0x02, 0x01, 0x00, 0x00, 0x00],
        &KEY,
    ]);
    reads_as(&rt, group.as_slice(), paired(0xE428, None, Some(0x4321)));
    let sink = joined(&[
        &[0x19, 0x00, 0x01, 0x68, 0xE4, 0x00],
        &DEVICE,
        &[0x01, 0x02, 0x03, 0x04, 0x05, 0x06, 0x07, 0x88, 0x0A, 0x0B],
        &[0x02, 0x01, 0x00, 0x00, 0x00],
        &KEY,
    ]);
    reads_as(
        &rt,
        sink.as_slice(),
        paired(0xE468, Some((0x8807_0605_0403_0201, 0x0B0A)), None),
    );
}

#[test]
fn a_commissioning_notification_with_proxy_and_mic(rt: HostRuntime) {
    let notice = CommissioningNotice {
        options: 0x0A08,
        src: Src(7),
        counter: 0,
        command: 0xE0,
        payload: Octets::of(&[0x02, 0xA1]),
        proxy: Some((0x0011, 0x50)),
        mic: Some([0x71, 0x72, 0x73, 0x74]),
    };
    reads_as(
        &rt,
        &[
            0x11, 0x01, 0x04, 0x08, 0x0A, 0x07, 0x00, 0x00, 0x00, 0x00, 0x00, 0x00, 0x00, 0xE0,
            0x02, 0x02, 0xA1, 0x11, 0x00, 0x50, 0x71, 0x72, 0x73, 0x74,
        ],
        Zcl {
            quiet: true,
            sequence: 1,
            body: Cluster::CommissioningNotice(notice),
        },
    );
}

/// Octets that are no message, and why.
const REFUSED: [(&[u8], ClusterReason); 23] = [
    (&[], ClusterReason::Short { place: 0 }),
    (&[0x10, 0x00], ClusterReason::Short { place: 2 }),
    (&[0x10, 0x00, 0x00], ClusterReason::HeaderForm { place: 0 }),
    (&[0x12, 0x00, 0x00], ClusterReason::HeaderForm { place: 0 }),
    (&[0x13, 0x00, 0x00], ClusterReason::HeaderForm { place: 0 }),
    (&[0x15, 0x00, 0x00], ClusterReason::HeaderForm { place: 0 }),
    (&[0x31, 0x00, 0x00], ClusterReason::HeaderForm { place: 0 }),
    (&[0x51, 0x00, 0x00], ClusterReason::HeaderForm { place: 0 }),
    (&[0x91, 0x00, 0x07], ClusterReason::HeaderForm { place: 0 }),
    (
        &[0x11, 0x00, 0x01],
        ClusterReason::CommandUnknown { place: 2 },
    ),
    (
        &[0x11, 0x00, 0x06],
        ClusterReason::CommandUnknown { place: 2 },
    ),
    (
        &[0x19, 0x00, 0x00],
        ClusterReason::CommandUnknown { place: 2 },
    ),
    (
        &[0x19, 0x00, 0x04],
        ClusterReason::CommandUnknown { place: 2 },
    ),
    (&[0x11, 0x00, 0x00, 0x01], ClusterReason::Short { place: 4 }),
    (
        &[0x11, 0x00, 0x00, 0x01, 0x00],
        ClusterReason::AppId { place: 3 },
    ),
    (
        &[0x11, 0x00, 0x04, 0x04, 0x00],
        ClusterReason::AppId { place: 3 },
    ),
    (&[0x19, 0x00, 0x06, 0x02], ClusterReason::AppId { place: 3 }),
    (
        &[0x19, 0x00, 0x01, 0x01, 0x00],
        ClusterReason::Short { place: 5 },
    ),
    (
        &[0x19, 0x00, 0x01, 0x01, 0x00, 0x00],
        ClusterReason::AppId { place: 3 },
    ),
    (
        &[0x19, 0x00, 0x01, 0x08, 0x00, 0x00],
        ClusterReason::Mode { place: 3 },
    ),
    (&[0x00; 127], ClusterReason::HeaderForm { place: 0 }),
    (&[0x00; 128], ClusterReason::Long { place: 127 }),
    (&[0x00; 200], ClusterReason::Long { place: 127 }),
];

#[test]
fn refusals(rt: HostRuntime) {
    for (octets, reason) in REFUSED {
        assert_eq!(rt; decode(octets), Err(reason));
    }
}

/// A Notification of these, whose payload has so many octets.
fn notification(options: u16, payload: usize, proxy: Option<(u16, u8)>) -> Zcl {
    let octets = [0xAA; 127];
    Zcl {
        quiet: false,
        sequence: 0,
        body: Cluster::Notification(Notification {
            options,
            src: Src(1),
            counter: 0,
            command: 0,
            payload: octets.get(..payload).and_then(Octets::of),
            proxy,
        }),
    }
}

/// Another ApplicationID, a field that isn't announced or is absent, options beyond three octets, and one octet more
/// than 127 have no spelling.
#[test]
fn invalid(rt: HostRuntime) {
    assert!(rt; valid(&notification(0, 112, None)));
    assert!(rt; !valid(&notification(0, 113, None)));
    assert!(rt; !valid(&notification(0, 127, None)));
    assert!(rt; !valid(&notification(1, 0, None)));
    assert!(rt; !valid(&notification(0x4000, 0, None)));
    assert!(rt; !valid(&notification(0, 0, Some((0, 0)))));
    assert!(rt; valid(&notification(0x4000, 109, Some((0, 0)))));
    assert!(rt; !valid(&notification(0x4000, 110, Some((0, 0)))));
    let removal = |options: u32| Zcl {
        quiet: true,
        sequence: 0,
        body: Cluster::Pairing(Pairing {
            options,
            src: Src(1),
            sink: None,
            group: None,
            device: None,
            counter: None,
            key: None,
            alias: None,
            radius: None,
        }),
    };
    assert!(rt; valid(&removal(0x10)));
    assert!(rt; valid(&removal(0xFC_0010)));
    assert!(rt; !valid(&removal(0x100_0010)));
    assert!(rt; !valid(&removal(0x00)));
    assert!(rt; !valid(&removal(0x20)));
}

/// Level and key type of the three kinds of options that have both.
#[test]
fn levels_and_key_types(rt: HostRuntime) {
    for level in 0..4u8 {
        for key_type in 0..8u8 {
            let notification = NotificationOptions(0x40 * level as u16 + 0x0100 * key_type as u16);
            assert_eq!(rt; notification.level(), level);
            assert_eq!(rt; notification.key_type(), key_type);
            let notice = NoticeOptions(0x10 * level as u16 + 0x40 * key_type as u16);
            assert_eq!(rt; notice.level(), level);
            assert_eq!(rt; notice.key_type(), key_type);
            let pairing = PairingOptions(0x0200 * level as u32 + 0x0800 * key_type as u32);
            assert_eq!(rt; pairing.level(), level);
            assert_eq!(rt; pairing.key_type(), key_type);
        }
    }
}

/// Each named bit of the options, alone.
#[test]
fn named_bits(rt: HostRuntime) {
    for (bit, weight) in [
        (3, 8),
        (4, 0x10),
        (5, 0x20),
        (11, 0x0800),
        (12, 0x1000),
        (13, 0x2000),
        (14, 0x4000),
    ] {
        let options = NotificationOptions(weight);
        assert_eq!(rt; options.also_unicast(), bit == 3);
        assert_eq!(rt; options.also_derived(), bit == 4);
        assert_eq!(rt; options.also_commissioned(), bit == 5);
        assert_eq!(rt; options.rx_after(), bit == 11);
        assert_eq!(rt; options.queue_is_full(), bit == 12);
        assert_eq!(rt; options.is_bidirectional(), bit == 13);
        assert_eq!(rt; options.has_proxy(), bit == 14);
    }
    for (bit, weight) in [(0, 1), (1, 2), (2, 4), (3, 8), (4, 0x10), (5, 0x20)] {
        let options = ModeOptions(weight);
        assert_eq!(rt; options.enters(), bit == 0);
        assert_eq!(rt; options.has_window(), bit == 1);
        assert_eq!(rt; options.ends_on_pairing(), bit == 2);
        assert_eq!(rt; options.ends_on_command(), bit == 3);
        assert_eq!(rt; options.has_channel(), bit == 4);
        assert_eq!(rt; options.tells_by_unicast(), bit == 5);
    }
}
