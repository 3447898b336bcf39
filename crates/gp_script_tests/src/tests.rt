//! Lines that are read and printed.

use gp_base::{Octets, Src};
use gp_script::{Action, Event, Report, RuleForm, print_entry, read_entry, read_event};

#[test]
fn entries_are_printed_as_they_were_read(rt: HostRuntime) {
    let lines = [
        "3 lamp paired 0 12345678 41",
        "4 lamp acted 0 12345678 42 20 1",
        "4 lamp zcl 01 0006 0 00 -",
        "5 lamp drop Malformed Short 12",
        "5 lamp drop Stale 42",
        "6 lamp put 18446744073709551615 group:0B05 1900E6",
        "7 - air 0 01",
        "8 lamp rule added",
        "8 lamp rule many",
        "9 lamp rows 65535",
        "9 lamp row 0 87654321 4 2 1 4321 02 1 4294967295",
    ];
    for line in lines {
        let is_same = match read_entry(line.as_bytes()) {
            Ok(entry) => match print_entry(rt.alloc(), &entry) {
                Ok(printed) => printed.as_slice() == line.as_bytes(),
                Err(_) => false,
            },
            Err(_) => false,
        };
        assert!(rt; is_same);
    }
}

#[test]
fn lines_of_another_form_are_none(rt: HostRuntime) {
    let lines = [
        "5",
        "5 hear 1 lamp 1",
        "5 hear 1 Lamp 10",
        "5 hear 1 4lamp 10",
        "5 hear 1 lamp 10 ",
        "+5 hear 1 lamp 10",
        "5 press d -",
        "18446744073709551616 press d 20",
        "5 rule s any 20 01",
        "5 rule s all 20 01 table",
        "5 rule s any 20 01 table 0006",
        "5 rule s any 20 01 copy 0006",
        "5 rule s any 20 01 fixed 0006 02",
        "5 inject",
        "5 inject 0",
        "5 announce s any",
        "5 table",
        "5 s rule Added",
        "5 s rows 65536",
        "5 s row 0 87654321 4 2 1 4321 02 2 1",
        "5 s row 0 87654321 4 2 4 4321 02 1 1",
        "5 s row 0 8765432a 4 2 1 4321 02 1 1",
        "5 - rows 0",
    ];
    for line in lines {
        assert!(rt; read_event(line.as_bytes()).is_err());
        assert!(rt; read_entry(line.as_bytes()).is_err());
    }
}

#[test]
fn lines_of_a_script_are_read(rt: HostRuntime) {
    let lines = [
        "",
        "# a comment",
        "18446744073609551615 hear 1 lamp aB",
        "5 sink s 1234 0011223344556677 group:0b05 11 - 00112233445566778899aabbccddeeff",
        "5 inject -",
        "5 announce s 87654321",
        "5 table s",
        "5 rule s any FF 01 copy 0006 02",
    ];
    for line in lines {
        assert!(rt; read_event(line.as_bytes()).is_ok());
    }
}

/// Whether a line is read as a rule of this device and form.
fn is_rule(line: &str, source: Option<Src>, form: &RuleForm) -> bool {
    match read_event(line.as_bytes()) {
        Ok(
            Event::Line {
                reading: 5,
                action: Action::Rule {
                    source: told,
                    command: 0x20,
                    endpoint: 0x01,
                    form: made,
                    ..
                },
            },
        ) => told == source && made == *form,
        _ => false,
    }
}

#[test]
fn a_rule_is_read_with_its_form(rt: HostRuntime) {
    assert!(rt; is_rule("5 rule s any 20 01 table", None, &RuleForm::Table));
    let copy = RuleForm::Copy {
        cluster: 0x0102,
        command: 0x03,
    };
    assert!(rt; is_rule("5 rule s 00000007 20 01 copy 0102 03", Some(Src(7)), &copy));
    let Some(payload) = Octets::of(&[0xAA, 0xBB]) else {
        return;
    };
    let fixed = RuleForm::Fixed {
        cluster: 0x0102,
        command: 0x03,
        payload,
    };
    assert!(rt; is_rule("5 rule s any 20 01 fixed 0102 03 aABb", None, &fixed));
}

#[test]
fn a_row_is_read_with_its_fields(rt: HostRuntime) {
    let line = "9 lamp row 3 87654321 4 2 1 4321 02 1 17";
    let is_right = match read_entry(line.as_bytes()) {
        Ok(entry) => match entry.report {
            Report::Row {
                row: 3,
                source: Src(0x8765_4321),
                group: 0x4321,
                device: 0x02,
                live: true,
                floor: 17,
                ..
            } => entry.line == 9,
            _ => false,
        },
        Err(_) => false,
    };
    assert!(rt; is_right);
}
