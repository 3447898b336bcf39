//! The lines of a report.

ghost use Rattle.std.specs.Prelude.{◌≡◌, ◌∷◌, [], ◌++◌, take, drop, codes, Some, None, IfOk, true};
ghost use Rattle.std.specs.Result.{result_ok};
ghost use Rattle.gp_script.specs.Kinds.{Reads, next};
ghost use Rattle.gp_script.specs.Report as spec;
ghost use Rattle.gp_script.specs.declared.report.Entry.{Entry as Told};

use crate::capture::NotALine;
use crate::kinds::{
    flag, has_small, hex16_in, key_kind, level, mode, name_or_dash, number8, number16, number32,
    number64, upper_octets, upper_source, upper8, upper16,
};
use crate::name::Name;
use crate::spelled::{Spelled, among};
use crate::standing::powered;
use crate::words::Words;
use gp_base::{KeyKind, Level, Mode, Octets, Src};

/// Where a message goes.
#[derive(Clone, Copy, PartialEq, Eq, Debug)]
pub enum Dest {
    /// To all nodes.
    All,
    /// To the members of a group.
    Group(u16),
    /// To one node.
    Node(u16),
}

/// Why an offer is refused.
#[derive(Clone, Copy, PartialEq, Eq, Debug)]
pub enum Refusal {
    NotListening,
    BadSource,
    LevelLow,
    NoKey,
    KeyTag,
    CounterEnd,
    TableFull,
}

/// What a sink answers to a rule.
#[derive(Clone, Copy, PartialEq, Eq, Debug)]
pub enum RuleAnswer {
    Added,
    Form,
    Full,
    Many,
}

/// Why octets are no frame.
#[derive(Clone, Copy, PartialEq, Eq, Debug)]
pub enum FrameFault {
    TooLong,
    Short,
    MacForm,
    FrameKind,
    Version,
    AppId,
    LevelOne,
    SecuredMaintenance,
    NoCommand,
}

/// Why octets are no command.
#[derive(Clone, Copy, PartialEq, Eq, Debug)]
pub enum CommandFault {
    Empty,
    Short,
    ValueKind,
    ReservedLevel,
    ReservedKeyKind,
}

/// A cause with nothing beside it.
#[derive(Clone, Copy, PartialEq, Eq, Debug)]
pub enum Cause {
    ToDevice,
    Unsecured,
    NeedsProxy,
    Duplicate,
    Unchecked,
    Unknown,
    KeyBit,
    LevelOther,
    BadTag,
    Idle,
}

/// Why a frame or a message is dropped.
#[derive(Clone, Copy, PartialEq, Eq, Debug)]
pub enum Dropped {
    /// It is no frame.
    Malformed { reason: FrameFault, place: u8 },
    /// Its command is none.
    CommandIll { reason: CommandFault, place: u8 },
    /// Its counter is not above the floor.
    Stale { floor: u32 },
    /// For another cause.
    Plain(Cause),
}

/// What a node did.
#[derive(Clone, PartialEq, Eq, Debug, Drop)]
pub enum Report {
    /// `paired ROW SRC FLOOR`
    Paired {
        row: u16,
        source: Src,
        floor: u32,
    },
    /// `unpaired ROW SRC COUNTER`
    Unpaired {
        row: u16,
        source: Src,
        counter: u32,
    },
    /// `acted ROW SRC COUNTER ID N`
    Acted {
        row: u16,
        source: Src,
        counter: u32,
        command: u8,
        count: u8,
    },
    /// `refused WORD`
    Refused {
        reason: Refusal,
    },
    /// `drop WORD`
    Drop {
        cause: Dropped,
    },
    /// `put M DEST HEX`
    Put {
        message: u64,
        dest: Dest,
        octets: Octets,
    },
    /// `air N HEX`
    Air {
        frame: u64,
        octets: Octets,
    },
    /// `zcl EP CLUSTER G ZCL PAYLOAD`
    Zcl {
        endpoint: u8,
        cluster: u16,
        general: bool,
        command: u8,
        payload: Octets,
    },
    /// `rule WORD`
    Rule {
        answer: RuleAnswer,
    },
    /// `rows N`
    Rows {
        count: u16,
    },
    /// `row R SRC KIND LEVEL MODE GROUP DEVICE LIVE FLOOR`
    Row {
        row: u16,
        source: Src,
        kind: KeyKind,
        level: Level,
        mode: Mode,
        group: u16,
        device: u8,
        live: bool,
        floor: u32,
    },
    /// `closed`: a device hears a frame, and asked for none.
    Closed,
    /// `end`: a device has no counter left.
    End,
    /// `armed`: a cut or a fault is armed.
    Armed,
    /// `cut`: the power of a sink was cut.
    Cut,
    /// `halted`: the disk of a sink has failed.
    Halted,
    /// `off`: a sink was switched off.
    Off,
    /// `up ROWS`: a sink was switched on, and holds so many rows.
    Up {
        rows: u16,
    },
    /// `dark`: a sink has no power.
    Dark,
    /// `running`: a sink has its power already.
    Running,
}

/// A line of a report.
#[derive(Clone, PartialEq, Eq, Debug, Drop)]
pub struct Entry {
    /// The number of the script's line.
    pub line: u64,
    /// The node, and none for an injected frame.
    pub node: Option<Name>,
    /// What it did.
    pub report: Report,
}

/// Reads a line of a report. `NotALine` comes exactly where it has none of the forms, and a line that is read is the one
/// spelling of its entry.
pub fn read_entry(line: &[u8]) -> Result<Entry, NotALine>
    ensures read { result_ok result ≡ spec.entry_of line.now }
    ensures spelled { IfOk result (λ entry. (line.now ≡ spec.text_of entry) × (spec.has_line entry ≡ true)) }
    ensures only { (entry : Told) → spec.has_line entry ≡ true → line.now ≡ spec.text_of entry → result_ok result ≡ Some entry }
{
    read_line(line)
}

// The entry that a line is read as.
fn read_line(line: &[u8]) -> Result<Entry, NotALine>
    ensures { result_ok result ≡ spec.entry_of line.now }
{
    let mut words = Words::of(line);
    match read_words(&mut words) {
        Some(entry) if words.is_done() && is_named(&entry) => Ok(entry),
        _ => Err(NotALine),
    }
}

// Whether a name stands where one has to.
fn is_named(entry: &Entry) -> bool
    ensures { result ≡ spec.is_named entry.now }
{
    match &entry.report {
        Report::Air { .. } => true,
        _ => entry.node.is_some(),
    }
}

fn read_words(words: &mut Words) -> Option<Entry>
    ensures { Reads spec.entry words.old words.new result }
{
    let line = number64(words)?;
    let node = name_or_dash(words)?;
    let keyword = words.next()?;
    Some(Entry {
        line,
        node,
        report: verdict(keyword, words)?,
    })
}

fn verdict(keyword: &[u8], words: &mut Words) -> Option<Report>
    ensures { Reads (spec.verdict keyword.now) words.old words.new result }
{
    if keyword == b"paired".as_slice() {
        return Some(Report::Paired {
            row: number16(words)?,
            source: upper_source(words)?,
            floor: number32(words)?,
        });
    }
    if keyword == b"unpaired".as_slice() {
        return Some(Report::Unpaired {
            row: number16(words)?,
            source: upper_source(words)?,
            counter: number32(words)?,
        });
    }
    if keyword == b"acted".as_slice() {
        return Some(Report::Acted {
            row: number16(words)?,
            source: upper_source(words)?,
            counter: number32(words)?,
            command: upper8(words)?,
            count: number8(words, 4)?,
        });
    }
    if keyword == b"refused".as_slice() {
        return Some(Report::Refused {
            reason: read_refusal(words)?,
        });
    }
    if keyword == b"drop".as_slice() {
        return Some(Report::Drop {
            cause: read_dropped(words)?,
        });
    }
    sent(keyword, words)
}

fn sent(keyword: &[u8], words: &mut Words) -> Option<Report>
    ensures { Reads (spec.sent keyword.now) words.old words.new result }
{
    if keyword == b"put".as_slice() {
        return Some(Report::Put {
            message: number64(words)?,
            dest: read_dest(words)?,
            octets: upper_octets(words)?,
        });
    }
    if keyword == b"air".as_slice() {
        return Some(Report::Air {
            frame: number64(words)?,
            octets: upper_octets(words)?,
        });
    }
    if keyword == b"zcl".as_slice() {
        return Some(Report::Zcl {
            endpoint: upper8(words)?,
            cluster: upper16(words)?,
            general: flag(words)?,
            command: upper8(words)?,
            payload: upper_octets(words)?,
        });
    }
    shown(keyword, words)
}

fn shown(keyword: &[u8], words: &mut Words) -> Option<Report>
    ensures { Reads (spec.shown keyword.now) words.old words.new result }
{
    if keyword == b"rule".as_slice() {
        return Some(Report::Rule {
            answer: read_rule_answer(words)?,
        });
    }
    if keyword == b"rows".as_slice() {
        return Some(Report::Rows {
            count: number16(words)?,
        });
    }
    if keyword == b"row".as_slice() {
        return Some(Report::Row {
            row: number16(words)?,
            source: upper_source(words)?,
            kind: key_kind(words)?,
            level: level(words)?,
            mode: mode(words)?,
            group: upper16(words)?,
            device: upper8(words)?,
            live: flag(words)?,
            floor: number32(words)?,
        });
    }
    answered(keyword, words)
}

fn answered(keyword: &[u8], words: &mut Words) -> Option<Report>
    ensures { Reads (spec.answered keyword.now) words.old words.new result }
{
    if keyword == b"closed".as_slice() {
        return Some(Report::Closed);
    }
    if keyword == b"end".as_slice() {
        return Some(Report::End);
    }
    powered(keyword, words)
}

fn read_dropped(words: &mut Words) -> Option<Dropped>
    ensures { Reads spec.dropped words.old words.new result }
{
    let keyword = words.next()?;
    if keyword == b"Malformed".as_slice() {
        return Some(Dropped::Malformed {
            reason: frame_fault(words)?,
            place: number8(words, 255)?,
        });
    }
    if keyword == b"CommandIll".as_slice() {
        return Some(Dropped::CommandIll {
            reason: command_fault(words)?,
            place: number8(words, 255)?,
        });
    }
    if keyword == b"Stale".as_slice() {
        return Some(Dropped::Stale {
            floor: number32(words)?,
        });
    }
    Some(Dropped::Plain(plain_cause(keyword)?))
}

const REFUSALS: [Refusal; 7] = [
    Refusal::NotListening,
    Refusal::BadSource,
    Refusal::LevelLow,
    Refusal::NoKey,
    Refusal::KeyTag,
    Refusal::CounterEnd,
    Refusal::TableFull,
];

impl Spelled for Refusal {
    ghost use Rattle.gp_script.specs.Report.{refusal_text};

    ghost spelling = { refusal_text };

    fn text(self) -> &'static str {
        match self {
            Refusal::NotListening => "NotListening",
            Refusal::BadSource => "BadSource",
            Refusal::LevelLow => "LevelLow",
            Refusal::NoKey => "NoKey",
            Refusal::KeyTag => "KeyTag",
            Refusal::CounterEnd => "CounterEnd",
            Refusal::TableFull => "TableFull",
        }
    }
}

const RULE_ANSWERS: [RuleAnswer; 4] = [
    RuleAnswer::Added,
    RuleAnswer::Form,
    RuleAnswer::Full,
    RuleAnswer::Many,
];

impl Spelled for RuleAnswer {
    ghost use Rattle.gp_script.specs.Report.{rule_text};

    ghost spelling = { rule_text };

    fn text(self) -> &'static str {
        match self {
            RuleAnswer::Added => "added",
            RuleAnswer::Form => "form",
            RuleAnswer::Full => "full",
            RuleAnswer::Many => "many",
        }
    }
}

const FRAME_FAULTS: [FrameFault; 9] = [
    FrameFault::TooLong,
    FrameFault::Short,
    FrameFault::MacForm,
    FrameFault::FrameKind,
    FrameFault::Version,
    FrameFault::AppId,
    FrameFault::LevelOne,
    FrameFault::SecuredMaintenance,
    FrameFault::NoCommand,
];

impl Spelled for FrameFault {
    ghost use Rattle.gp_script.specs.Report.{frame_text};

    ghost spelling = { frame_text };

    fn text(self) -> &'static str {
        match self {
            FrameFault::TooLong => "TooLong",
            FrameFault::Short => "Short",
            FrameFault::MacForm => "MacForm",
            FrameFault::FrameKind => "FrameKind",
            FrameFault::Version => "Version",
            FrameFault::AppId => "AppId",
            FrameFault::LevelOne => "LevelOne",
            FrameFault::SecuredMaintenance => "SecuredMaintenance",
            FrameFault::NoCommand => "NoCommand",
        }
    }
}

const COMMAND_FAULTS: [CommandFault; 5] = [
    CommandFault::Empty,
    CommandFault::Short,
    CommandFault::ValueKind,
    CommandFault::ReservedLevel,
    CommandFault::ReservedKeyKind,
];

impl Spelled for CommandFault {
    ghost use Rattle.gp_script.specs.Report.{command_text};

    ghost spelling = { command_text };

    fn text(self) -> &'static str {
        match self {
            CommandFault::Empty => "Empty",
            CommandFault::Short => "Short",
            CommandFault::ValueKind => "ValueKind",
            CommandFault::ReservedLevel => "ReservedLevel",
            CommandFault::ReservedKeyKind => "ReservedKeyKind",
        }
    }
}

const CAUSES: [Cause; 10] = [
    Cause::ToDevice,
    Cause::Unsecured,
    Cause::NeedsProxy,
    Cause::Duplicate,
    Cause::Unchecked,
    Cause::Unknown,
    Cause::KeyBit,
    Cause::LevelOther,
    Cause::BadTag,
    Cause::Idle,
];

impl Spelled for Cause {
    ghost use Rattle.gp_script.specs.Report.{cause_text};

    ghost spelling = { cause_text };

    fn text(self) -> &'static str {
        match self {
            Cause::ToDevice => "ToDevice",
            Cause::Unsecured => "Unsecured",
            Cause::NeedsProxy => "NeedsProxy",
            Cause::Duplicate => "Duplicate",
            Cause::Unchecked => "Unchecked",
            Cause::Unknown => "Unknown",
            Cause::KeyBit => "KeyBit",
            Cause::LevelOther => "LevelOther",
            Cause::BadTag => "BadTag",
            Cause::Idle => "Idle",
        }
    }
}

fn read_refusal(words: &mut Words) -> Option<Refusal>
    ensures { Reads (next spec.refusal) words.old words.new result }
{
    among(words.next()?, &REFUSALS)
}

fn read_rule_answer(words: &mut Words) -> Option<RuleAnswer>
    ensures { Reads (next spec.rule_answer) words.old words.new result }
{
    among(words.next()?, &RULE_ANSWERS)
}

fn frame_fault(words: &mut Words) -> Option<FrameFault>
    ensures { Reads (next spec.frame_fault) words.old words.new result }
{
    among(words.next()?, &FRAME_FAULTS)
}

fn command_fault(words: &mut Words) -> Option<CommandFault>
    ensures { Reads (next spec.command_fault) words.old words.new result }
{
    among(words.next()?, &COMMAND_FAULTS)
}

fn plain_cause(word: &[u8]) -> Option<Cause>
    ensures { result ≡ spec.plain_cause.read word.now }
{
    among(word, &CAUSES)
}

// Where a message goes.
fn read_dest(words: &mut Words) -> Option<Dest>
    ensures { Reads (next spec.dest) words.old words.new result }
{
    let word = words.next()?;
    if word == b"all".as_slice() {
        return Some(Dest::All);
    }
    if let Some(digits) = word.strip_prefix(b"group:") {
        return Some(Dest::Group(address(digits)?));
    }
    Some(Dest::Node(address(word.strip_prefix(b"node:")?)?))
}

fn address(digits: &[u8]) -> Option<u16>
    ensures { result ≡ spec.address digits.now }
{
    if has_small(digits) {
        return None;
    }
    hex16_in(digits)
}
