//! The lines of a script.

ghost use Rattle.std.specs.Prelude.{◌≡◌, ◌∷◌, [], take, drop, codes, Some, None};
ghost use Rattle.std.specs.Result.{result_ok};
ghost use Rattle.gp_script.specs.Kinds.{Reads, next};
ghost use Rattle.gp_script.specs.Script as spec;

use crate::capture::NotALine;
use crate::kinds::{
    any_source, hex8, hex16, hex16_in, hex64, key, key_kind, key_or_dash, level, name, number_in,
    number16, number32, number64, octets, source,
};
use crate::name::Name;
use crate::words::Words;
use gp_base::{Key, KeyKind, Level, Octets, Src};

/// How a sink asks for the frames of a device.
#[derive(Clone, Copy, PartialEq, Eq, Debug)]
pub enum SinkMode {
    /// To the group that is derived from its SrcID.
    Derived,
    /// To the sink.
    Unicast,
    /// To this group.
    Group(u16),
}

/// What a rule makes of a command.
#[derive(Clone, PartialEq, Eq, Debug, Drop)]
pub enum RuleForm {
    /// `table`: what the command means in the standard table.
    Table,
    /// `copy ADDR ID`: this command of this cluster, with the command's payload.
    Copy {
        cluster: u16,
        command: u8,
    },
    /// `fixed ADDR ID HEX`: this command of this cluster, with this payload.
    Fixed {
        cluster: u16,
        command: u8,
        payload: Octets,
    },
}

/// What a line of a script does.
#[derive(Clone, PartialEq, Eq, Debug, Drop)]
pub enum Action {
    /// `sink NAME ADDR IEEE MODE CHANNEL LINKKEY KEY`: makes a running sink.
    Sink {
        name: Name,
        address: u16,
        ieee: u64,
        mode: SinkMode,
        channel: u8,
        link: Option<Key>,
        shared: Key,
    },
    /// `device NAME SRC KEY KIND LEVEL DEVICE COUNTER`: makes a device.
    Device {
        name: Name,
        source: Src,
        key: Key,
        kind: KeyKind,
        level: Level,
        device: u8,
        counter: u32,
    },
    /// `rule SINK SRC ID EP FORM`: adds a rule, for one device or for `any`.
    Rule {
        sink: Name,
        source: Option<Src>,
        command: u8,
        endpoint: u8,
        form: RuleForm,
    },
    /// `pair SINK SRC KEY KIND LEVEL DEVICE COUNTER`: pairs a device.
    Pair {
        sink: Name,
        source: Src,
        key: Key,
        kind: KeyKind,
        level: Level,
        device: u8,
        counter: u32,
    },
    /// `press DEVICE HEX`: sends a command.
    Press {
        device: Name,
        command: Octets,
    },
    /// `inject HEX`: sends a frame that no device made.
    Inject {
        frame: Octets,
    },
    /// `hear N NODE LINK`: a frame reaches a node.
    Hear {
        frame: u64,
        node: Name,
        link: u8,
    },
    /// `announce SINK SRC`: puts the message of a pairing again.
    Announce {
        sink: Name,
        source: Src,
    },
    /// `table SINK`: lists the rows.
    Table {
        sink: Name,
    },
    /// `cut SINK K P W`: the power is cut in the K-th commit from now on, once P of its device calls have returned.
    Cut {
        sink: Name,
        commit: u32,
        calls: u16,
        way: u8,
    },
    /// `fault SINK K P`: device call min(P + 1, 4) of the K-th commit from now on fails.
    Fault {
        sink: Name,
        commit: u32,
        calls: u16,
    },
    /// `on SINK`: switches the power on.
    On {
        sink: Name,
    },
    /// `on SINK cut P W`: switches the power on, and cuts it once P device calls of the recovery have returned.
    OnCut {
        sink: Name,
        calls: u16,
        way: u8,
    },
    /// `off SINK`: switches the power off.
    Off {
        sink: Name,
    },
}

/// What a line of a script asks for.
#[derive(Clone, PartialEq, Eq, Debug, Drop)]
pub enum Event {
    /// Nothing: an empty line or a comment.
    Nothing,
    /// An action at this reading of the clock, in milliseconds.
    Line { reading: u64, action: Action },
}

/// Reads a line of a script. `NotALine` comes exactly where it has none of the forms.
pub fn read_event(line: &[u8]) -> Result<Event, NotALine>
    ensures { result_ok result ≡ spec.event_of line.now }
{
    if line.is_empty() || line[0] == b'#' {
        return Ok(Event::Nothing);
    }
    let mut words = Words::of(line);
    match timed(&mut words) {
        Some(event) if words.is_done() => Ok(event),
        _ => Err(NotALine),
    }
}

fn timed(words: &mut Words) -> Option<Event>
    ensures { Reads spec.timed words.old words.new result }
{
    let reading = number_in(words.next()?, 18446744073609551615)?;
    let keyword = words.next()?;
    Some(Event::Line {
        reading,
        action: nodes(keyword, words)?,
    })
}

fn nodes(keyword: &[u8], words: &mut Words) -> Option<Action>
    ensures { Reads (spec.nodes keyword.now) words.old words.new result }
{
    if keyword == b"sink".as_slice() {
        return Some(Action::Sink {
            name: name(words)?,
            address: hex16(words)?,
            ieee: hex64(words)?,
            mode: sink_mode(words)?,
            channel: channel(words)?,
            link: key_or_dash(words)?,
            shared: key(words)?,
        });
    }
    if keyword == b"device".as_slice() {
        return Some(Action::Device {
            name: name(words)?,
            source: source(words)?,
            key: key(words)?,
            kind: key_kind(words)?,
            level: level(words)?,
            device: hex8(words)?,
            counter: number32(words)?,
        });
    }
    pairings(keyword, words)
}

fn pairings(keyword: &[u8], words: &mut Words) -> Option<Action>
    ensures { Reads (spec.pairings keyword.now) words.old words.new result }
{
    if keyword == b"rule".as_slice() {
        return Some(Action::Rule {
            sink: name(words)?,
            source: any_source(words)?,
            command: hex8(words)?,
            endpoint: hex8(words)?,
            form: rule_form(words)?,
        });
    }
    if keyword == b"pair".as_slice() {
        return Some(Action::Pair {
            sink: name(words)?,
            source: source(words)?,
            key: key(words)?,
            kind: key_kind(words)?,
            level: level(words)?,
            device: hex8(words)?,
            counter: number32(words)?,
        });
    }
    if keyword == b"announce".as_slice() {
        return Some(Action::Announce {
            sink: name(words)?,
            source: source(words)?,
        });
    }
    if keyword == b"table".as_slice() {
        return Some(Action::Table { sink: name(words)? });
    }
    frames(keyword, words)
}

fn frames(keyword: &[u8], words: &mut Words) -> Option<Action>
    ensures { Reads (spec.frames keyword.now) words.old words.new result }
{
    if keyword == b"press".as_slice() {
        return Some(Action::Press {
            device: name(words)?,
            command: command(words)?,
        });
    }
    if keyword == b"inject".as_slice() {
        return Some(Action::Inject {
            frame: octets(words)?,
        });
    }
    if keyword == b"hear".as_slice() {
        return Some(Action::Hear {
            frame: number64(words)?,
            node: name(words)?,
            link: hex8(words)?,
        });
    }
    power(keyword, words)
}

fn power(keyword: &[u8], words: &mut Words) -> Option<Action>
    ensures { Reads (spec.power keyword.now) words.old words.new result }
{
    if keyword == b"cut".as_slice() {
        return Some(Action::Cut {
            sink: name(words)?,
            commit: commit(words)?,
            calls: number16(words)?,
            way: way(words)?,
        });
    }
    if keyword == b"fault".as_slice() {
        return Some(Action::Fault {
            sink: name(words)?,
            commit: commit(words)?,
            calls: number16(words)?,
        });
    }
    if keyword == b"on".as_slice() {
        let sink = name(words)?;
        return switched_on(sink, words);
    }
    if keyword == b"off".as_slice() {
        return Some(Action::Off { sink: name(words)? });
    }
    None
}

// What follows the name of a sink that is switched on.
fn switched_on(sink: Name, words: &mut Words) -> Option<Action>
    ensures { Reads (spec.switched_on sink) words.old words.new result }
{
    match words.next() {
        None => Some(Action::On { sink }),
        Some(word) => {
            if word == b"cut".as_slice() {
                return Some(Action::OnCut {
                    sink,
                    calls: number16(words)?,
                    way: way(words)?,
                });
            }
            None
        }
    }
}

// What a rule makes of a command.
pub(crate) fn rule_form(words: &mut Words) -> Option<RuleForm>
    ensures { Reads spec.rule_form words.old words.new result }
{
    let keyword = words.next()?;
    if keyword == b"table".as_slice() {
        return Some(RuleForm::Table);
    }
    if keyword == b"copy".as_slice() {
        return Some(RuleForm::Copy {
            cluster: hex16(words)?,
            command: hex8(words)?,
        });
    }
    if keyword == b"fixed".as_slice() {
        return Some(RuleForm::Fixed {
            cluster: hex16(words)?,
            command: hex8(words)?,
            payload: octets(words)?,
        });
    }
    None
}

// How a sink asks for frames.
pub(crate) fn sink_mode(words: &mut Words) -> Option<SinkMode>
    ensures { Reads (next spec.sink_mode) words.old words.new result }
{
    let word = words.next()?;
    if word == b"derived".as_slice() {
        return Some(SinkMode::Derived);
    }
    if word == b"unicast".as_slice() {
        return Some(SinkMode::Unicast);
    }
    Some(SinkMode::Group(hex16_in(word.strip_prefix(b"group:")?)?))
}

// A channel, from 11 to 26.
pub(crate) fn channel(words: &mut Words) -> Option<u8>
    ensures { Reads (next spec.channel) words.old words.new result }
{
    let number = number_in(words.next()?, 26)?;
    if number < 11 {
        return None;
    }
    Some(number as u8)
}

// The number of a commit, from 1 to 1,000,000.
fn commit(words: &mut Words) -> Option<u32>
    ensures { Reads (next spec.commit) words.old words.new result }
{
    let number = number_in(words.next()?, 1000000)?;
    if number < 1 {
        return None;
    }
    Some(number as u32)
}

// A way in which a disk crashes, from 0 to 4.
fn way(words: &mut Words) -> Option<u8>
    ensures { Reads (next spec.way) words.old words.new result }
{
    Some(number_in(words.next()?, 4)? as u8)
}

// From 1 to 104 octets.
fn command(words: &mut Words) -> Option<Octets>
    ensures { Reads (next spec.command) words.old words.new result }
{
    let octets = octets(words)?;
    let count = octets.as_slice().len();
    if count < 1 || count > 104 {
        return None;
    }
    Some(octets)
}
