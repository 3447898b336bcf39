//! What no clause says: what commands become by the formats and the ZCL, which rules are refused, and that the calls succeed.

ghost use Rattle.std.specs.Prelude.{◌≤◌, length};

use gp_base::{Octets, Src};
use gp_commands::{read, sound};
use gp_translate::{Act, Rule, RuleReason, Rules, Target, translate};
use std::test::Fail;

/// A command and what the standard rules make of it: cluster, whether general, command and payload, or nothing.
#[derive(Drop)]
struct Case {
    octets: &'static [u8],
    act: Option<(u16, bool, u8, &'static [u8])>,
}

const CASES: [Case; 17] = [
    // Identify, for 60 seconds
    Case {
        octets: &[0x00],
        act: Some((0x0003, false, 0x00, &[0x3C, 0x00])),
    },
    // Recall Scene 0 and 7
    Case {
        octets: &[0x10],
        act: Some((0x0005, false, 0x05, &[0x00, 0x00, 0x00])),
    },
    Case {
        octets: &[0x17, 0x55],
        act: Some((0x0005, false, 0x05, &[0x00, 0x00, 0x07])),
    },
    // Store Scene 7
    Case {
        octets: &[0x1F],
        act: Some((0x0005, false, 0x04, &[0x00, 0x00, 0x07])),
    },
    // Off, Toggle, Release
    Case {
        octets: &[0x20],
        act: Some((0x0006, false, 0x00, &[])),
    },
    Case {
        octets: &[0x22],
        act: Some((0x0006, false, 0x02, &[])),
    },
    Case {
        octets: &[0x23],
        act: None,
    },
    // Move Up at a rate, Move Down without one
    Case {
        octets: &[0x30, 0x20, 0x55],
        act: Some((0x0008, false, 0x01, &[0x00, 0x20])),
    },
    Case {
        octets: &[0x31],
        act: Some((0x0008, false, 0x01, &[0x01, 0xFF])),
    },
    // Step Up without a time, Step Down with On/Off in a time
    Case {
        octets: &[0x32, 0x10],
        act: Some((0x0008, false, 0x02, &[0x00, 0x10, 0xFF, 0xFF])),
    },
    Case {
        octets: &[0x38, 0x10, 0x0A, 0x01],
        act: Some((0x0008, false, 0x06, &[0x01, 0x10, 0x0A, 0x01])),
    },
    // Level Stop
    Case {
        octets: &[0x34],
        act: Some((0x0008, false, 0x03, &[])),
    },
    // Move Down with On/Off
    Case {
        octets: &[0x36, 0x05],
        act: Some((0x0008, false, 0x05, &[0x01, 0x05])),
    },
    // Unlock Door
    Case {
        octets: &[0x51],
        act: Some((0x0101, false, 0x01, &[])),
    },
    // press of a key
    Case {
        octets: &[0x61],
        act: None,
    },
    // a temperature of 10 (29 is a number of 16 bits with a sign)
    Case {
        octets: &[0xA0, 0x02, 0x04, 0x00, 0x00, 0x29, 0x0A, 0x00],
        act: Some((0x0402, true, 0x0A, &[0x00, 0x00, 0x29, 0x0A, 0x00])),
    },
    // Commissioning
    Case {
        octets: &[0xE0, 0x02, 0x00],
        act: None,
    },
];

const DEVICE: Src = Src(0x8765_4321);

const COPIED: &[u8] = &[0xAA, 0xBB];

const FIXED: &[u8] = &[0x2A];

/// A rule that copies.
fn copying(source: Option<Src>, command: u8, endpoint: u8) -> Rule {
    Rule {
        source,
        command,
        endpoint,
        target: Target::Copy {
            cluster: 0x0500,
            zcl: 0x07,
        },
    }
}

/// Whether an act is this one.
fn is_act(act: &Act, endpoint: u8, told: &(u16, bool, u8, &[u8])) -> bool {
    act.endpoint == endpoint
        && act.cluster == told.0
        && act.general == told.1
        && act.zcl == told.2
        && act.payload.as_slice() == told.3
}

/// Whether the acts of a command under some rules are these, at these endpoints.
fn has_acts(rules: &Rules, octets: &[u8], told: &[(u8, (u16, bool, u8, &[u8]))]) -> bool
    requires { length octets.now ≤ 117 }
{
    let Ok(command) = read(octets) else {
        return false;
    };
    if !sound(&command) {
        return false;
    }
    let acts = translate(rules, DEVICE, &command);
    if acts.as_slice().len() != told.len() {
        return false;
    }
    for (act, (endpoint, expected)) in acts.as_slice().iter().zip(told) {
        if !is_act(act, *endpoint, expected) {
            return false;
        }
    }
    true
}

#[test]
fn the_standard_rules_give_what_the_formats_say(rt: HostRuntime) {
    for case in &CASES {
        let rules = Rules::standard();
        let is_right = match case.act {
            Some(act) => has_acts(&rules, case.octets, &[(1, act)]),
            None => has_acts(&rules, case.octets, &[]),
        };
        assert!(rt; is_right);
    }
}

#[test]
fn the_fifth_rule_of_a_command_and_the_65th_of_all_are_refused(rt: HostRuntime) {
    let mut rules = Rules::standard();
    for i in 0..3u8 {
        assert!(rt; rules.add(copying(None, 0x20, 10 + i)) == Ok(()));
    }
    assert!(rt; rules.add(copying(None, 0x20, 20)) == Err(RuleReason::Many));
    assert!(rt; rules.add(copying(Some(DEVICE), 0x20, 20)) == Err(RuleReason::Many));
    for i in 0..29u8 {
        assert!(rt; rules.add(copying(None, 0x60 + i, 1)) == Ok(()));
    }
    assert!(rt; rules.add(copying(None, 0x9F, 1)) == Err(RuleReason::Full));
    assert!(rt; rules.add(copying(None, 0xE0, 1)) == Err(RuleReason::Form));
}

#[test]
fn rules_of_another_form_are_refused(rt: HostRuntime) {
    let mut rules = Rules::standard();
    let parsed = Rule {
        source: None,
        command: 0x23,
        endpoint: 1,
        target: Target::Parsed,
    };
    assert!(rt; rules.add(parsed) == Err(RuleReason::Form));
    for count in 32..34usize {
        let Some(payload) = Octets::of(&[7; 33][..count]) else {
            return;
        };
        let fixed = Rule {
            source: None,
            command: 0x23,
            endpoint: 1,
            target: Target::Fixed {
                cluster: 0x0006,
                zcl: 0x02,
                payload,
            },
        };
        let is_long = count > 32;
        assert!(rt; rules.add(fixed).is_err() == is_long);
    }
}

#[test]
fn rules_copy_and_hold_for_their_device(rt: HostRuntime) {
    let mut rules = Rules::standard();
    let Some(payload) = Octets::of(FIXED) else {
        return;
    };
    let fixed = Rule {
        source: Some(DEVICE),
        command: 0x69,
        endpoint: 3,
        target: Target::Fixed {
            cluster: 0x0501,
            zcl: 0x02,
            payload,
        },
    };
    assert!(rt; rules.add(copying(Some(DEVICE), 0x69, 2)) == Ok(()));
    assert!(rt; rules.add(copying(Some(Src(7)), 0x69, 9)) == Ok(()));
    assert!(rt; rules.add(fixed) == Ok(()));
    let acts = [
        (2, (0x0500, false, 0x07, COPIED)),
        (3, (0x0501, false, 0x02, FIXED)),
    ];
    assert!(rt; has_acts(&rules.copy(), &[0x69, 0xAA, 0xBB], &acts));
}
