//! The lines of one sink's life.

ghost use Rattle.std.specs.Prelude.{◌≡◌, ◌∷◌, [], codes};
ghost use Rattle.std.specs.Result.{result_ok};
ghost use Rattle.gp_script.specs.Kinds.{Reads};
ghost use Rattle.gp_script.specs.SinkScript as spec;

use crate::capture::NotALine;
use crate::kinds::{
    any_source, hex8, hex16, hex64, key, key_kind, key_or_dash, level, number_in, number32, octets,
    source,
};
use crate::script::{RuleForm, SinkMode, channel, rule_form, sink_mode};
use crate::words::Words;
use gp_base::{Key, KeyKind, Level, Octets, Src};

/// What a line of a sink's life does.
#[derive(Clone, PartialEq, Eq, Debug, Drop)]
pub enum SinkAction {
    /// `config ADDR IEEE MODE CHANNEL LINKKEY KEY`: starts the sink.
    Config {
        address: u16,
        ieee: u64,
        mode: SinkMode,
        channel: u8,
        link: Option<Key>,
        shared: Key,
    },
    /// `hear HEX`: octets on the air reach the sink.
    Hear {
        octets: Octets,
    },
    /// `pair SRC KEY KIND LEVEL DEVICE COUNTER`: pairs a device.
    Pair {
        source: Src,
        key: Key,
        kind: KeyKind,
        level: Level,
        device: u8,
        counter: u32,
    },
    /// `rule SRC ID EP FORM`: adds a rule, for one device or for `any`.
    Rule {
        source: Option<Src>,
        command: u8,
        endpoint: u8,
        form: RuleForm,
    },
    /// `announce SRC`: puts the message of a pairing again.
    Announce {
        source: Src,
    },
    /// `table`: lists the rows.
    Table,
}

/// What a line of a sink's life asks for.
#[derive(Clone, PartialEq, Eq, Debug, Drop)]
pub enum SinkEvent {
    /// Nothing: an empty line or a comment.
    Nothing,
    /// An action at this reading of the clock, in milliseconds.
    Line { reading: u64, action: SinkAction },
}

/// Reads a line of a sink's life. `NotALine` comes exactly where it has none of the forms.
pub fn read_sink_event(line: &[u8]) -> Result<SinkEvent, NotALine>
    ensures { result_ok result ≡ spec.sink_event_of line.now }
{
    if line.is_empty() || line[0] == b'#' {
        return Ok(SinkEvent::Nothing);
    }
    let mut words = Words::of(line);
    match timed(&mut words) {
        Some(event) if words.is_done() => Ok(event),
        _ => Err(NotALine),
    }
}

fn timed(words: &mut Words) -> Option<SinkEvent>
    ensures { Reads spec.timed words.old words.new result }
{
    let reading = number_in(words.next()?, 18446744073609551615)?;
    let keyword = words.next()?;
    Some(SinkEvent::Line {
        reading,
        action: actions(keyword, words)?,
    })
}

fn actions(keyword: &[u8], words: &mut Words) -> Option<SinkAction>
    ensures { Reads (spec.actions keyword.now) words.old words.new result }
{
    if keyword == b"config".as_slice() {
        return Some(SinkAction::Config {
            address: hex16(words)?,
            ieee: hex64(words)?,
            mode: sink_mode(words)?,
            channel: channel(words)?,
            link: key_or_dash(words)?,
            shared: key(words)?,
        });
    }
    if keyword == b"hear".as_slice() {
        return Some(SinkAction::Hear {
            octets: octets(words)?,
        });
    }
    pairings(keyword, words)
}

fn pairings(keyword: &[u8], words: &mut Words) -> Option<SinkAction>
    ensures { Reads (spec.pairings keyword.now) words.old words.new result }
{
    if keyword == b"rule".as_slice() {
        return Some(SinkAction::Rule {
            source: any_source(words)?,
            command: hex8(words)?,
            endpoint: hex8(words)?,
            form: rule_form(words)?,
        });
    }
    if keyword == b"pair".as_slice() {
        return Some(SinkAction::Pair {
            source: source(words)?,
            key: key(words)?,
            kind: key_kind(words)?,
            level: level(words)?,
            device: hex8(words)?,
            counter: number32(words)?,
        });
    }
    if keyword == b"announce".as_slice() {
        return Some(SinkAction::Announce {
            source: source(words)?,
        });
    }
    if keyword == b"table".as_slice() {
        return Some(SinkAction::Table);
    }
    None
}
