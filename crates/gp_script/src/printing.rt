//! The text of a line of a report.

ghost use Rattle.std.specs.Prelude.{◌≡◌, ◌++◌, [], ◌∷◌, OnOk, IfOk, codes, true, Some};
ghost use Rattle.gp_script.specs.Kinds as kinds;
ghost use Rattle.gp_script.specs.Kinds.{texts, or_word_text};
ghost use Rattle.gp_script.specs.Words.{added};
ghost use Rattle.gp_script.specs.Report as spec;
ghost use Rattle.gp_script.specs.Inside.{IsOfPower};

use crate::report::{Dest, Dropped, Entry, Report};
use crate::spelled::Spelled;
use crate::text::{push_number, put_flag, put_hex, put_labelled, put_number, put_octets, put_word};
use gp_base::{KeyKind, Level, Mode, NoMemory, Src};
use std::alloc::{AllocError, Global};
use std::marker::Model;

/// A line of text.
#[derive(Debug, Drop)]
pub struct Line {
    text: Vec<u8>,
}

impl Model for Line {
    ghost use Rattle.std.specs.Prelude.{List, ℕ};

    ghost Value = { List ℕ };

    ghost view = { λ l. l.text.items };
}

impl Line {
    /// The octets, first to last.
    pub fn as_slice(&self) -> &[u8]
        ensures { result.now ≡ self.now }
    {
        self.text.as_slice()
    }
}

/// Prints the one spelling of an entry. Where the entry has a line, that line reads back as the entry.
#[tactic(auto, using(crate::proofs::ReportLaws::printed_law))]
pub fn print_entry(alloc: Global, entry: &Entry) -> Result<Line, NoMemory>
    ensures text { IfOk result (λ line. line ≡ spec.text_of entry.now) }
    ensures back { IfOk result (λ line. spec.has_line entry.now ≡ true → spec.entry_of line ≡ Some entry.now) }
{
    let mut text = Vec::new(alloc);
    match put_entry(&mut text, entry) {
        Ok(()) => Ok(Line { text }),
        Err(_) => Err(NoMemory),
    }
}

#[tactic(auto, using(crate::proofs::Adding::line_added))]
fn put_entry(text: &mut Vec<u8>, entry: &Entry) -> Result<(), AllocError>
    ensures { OnOk result (text.new.items ≡ text.old.items ++ spec.text_of entry.now) }
{
    push_number(text, entry.line)?;
    put_node(text, &entry.node)?;
    put_report(text, &entry.report)
}

fn put_report(text: &mut Vec<u8>, report: &Report) -> Result<(), AllocError>
    ensures { OnOk result (text.new.items ≡ added text.old.items (texts (spec.report_words report.now))) }
{
    match report {
        Report::Paired { row, source, floor } => {
            put_word(text, "paired")?;
            put_number(text, u64::from(*row))?;
            put_source(text, *source)?;
            put_number(text, u64::from(*floor))
        }
        Report::Unpaired {
            row,
            source,
            counter,
        } => {
            put_word(text, "unpaired")?;
            put_number(text, u64::from(*row))?;
            put_source(text, *source)?;
            put_number(text, u64::from(*counter))
        }
        Report::Acted {
            row,
            source,
            counter,
            command,
            count,
        } => {
            put_word(text, "acted")?;
            put_number(text, u64::from(*row))?;
            put_source(text, *source)?;
            put_number(text, u64::from(*counter))?;
            put_hex(text, &[*command])?;
            put_number(text, u64::from(*count))
        }
        Report::Refused { reason } => {
            put_word(text, "refused")?;
            put_word(text, reason.text())
        }
        Report::Drop { cause } => {
            put_word(text, "drop")?;
            put_dropped(text, *cause)
        }
        Report::Put {
            message,
            dest,
            octets,
        } => {
            put_word(text, "put")?;
            put_number(text, *message)?;
            put_dest(text, *dest)?;
            put_octets(text, octets.as_slice())
        }
        Report::Air { frame, octets } => {
            put_word(text, "air")?;
            put_number(text, *frame)?;
            put_octets(text, octets.as_slice())
        }
        Report::Zcl {
            endpoint,
            cluster,
            general,
            command,
            payload,
        } => {
            put_word(text, "zcl")?;
            put_hex(text, &[*endpoint])?;
            put_hex(text, &cluster.to_be_bytes())?;
            put_flag(text, *general)?;
            put_hex(text, &[*command])?;
            put_octets(text, payload.as_slice())
        }
        Report::Rule { answer } => {
            put_word(text, "rule")?;
            put_word(text, answer.text())
        }
        Report::Rows { count } => {
            put_word(text, "rows")?;
            put_number(text, u64::from(*count))
        }
        Report::Row {
            row,
            source,
            kind,
            level,
            mode,
            group,
            device,
            live,
            floor,
        } => {
            put_word(text, "row")?;
            put_number(text, u64::from(*row))?;
            put_source(text, *source)?;
            put_word(text, kind_text(*kind))?;
            put_word(text, level_text(*level))?;
            put_word(text, mode_text(*mode))?;
            put_hex(text, &group.to_be_bytes())?;
            put_hex(text, &[*device])?;
            put_flag(text, *live)?;
            put_number(text, u64::from(*floor))
        }
        Report::Closed => put_word(text, "closed"),
        Report::End => put_word(text, "end"),
        other => put_power(text, other),
    }
}

// A report of a sink's power.
fn put_power(text: &mut Vec<u8>, report: &Report) -> Result<(), AllocError>
    requires { IsOfPower report.now }
    ensures { OnOk result (text.new.items ≡ added text.old.items (texts (spec.report_words report.now))) }
{
    match report {
        Report::Armed => put_word(text, "armed"),
        Report::Cut => put_word(text, "cut"),
        Report::Halted => put_word(text, "halted"),
        Report::Off => put_word(text, "off"),
        Report::Up { rows } => {
            put_word(text, "up")?;
            put_number(text, u64::from(*rows))
        }
        Report::Dark => put_word(text, "dark"),
        Report::Running => put_word(text, "running"),
        _ => unreachable!(),
    }
}

fn put_dropped(text: &mut Vec<u8>, cause: Dropped) -> Result<(), AllocError>
    ensures { OnOk result (text.new.items ≡ added text.old.items (texts (spec.dropped_words cause))) }
{
    match cause {
        Dropped::Malformed { reason, place } => {
            put_word(text, "Malformed")?;
            put_word(text, reason.text())?;
            put_number(text, u64::from(place))
        }
        Dropped::CommandIll { reason, place } => {
            put_word(text, "CommandIll")?;
            put_word(text, reason.text())?;
            put_number(text, u64::from(place))
        }
        Dropped::Stale { floor } => {
            put_word(text, "Stale")?;
            put_number(text, u64::from(floor))
        }
        Dropped::Plain(cause) => put_word(text, cause.text()),
    }
}

// The number of a kind of key, of a level and of a mode, as a word.
fn kind_text(kind: KeyKind) -> &'static str
    ensures { result.now ≡ kinds.key_kind_text kind }
{
    match kind {
        KeyKind::Nwk => "1",
        KeyKind::Group => "2",
        KeyKind::DerivedGroup => "3",
        KeyKind::OutOfBox => "4",
        KeyKind::DerivedIndividual => "7",
    }
}

fn level_text(level: Level) -> &'static str
    ensures { result.now ≡ kinds.level_text level }
{
    match level {
        Level::Two => "2",
        Level::Three => "3",
    }
}

fn mode_text(mode: Mode) -> &'static str
    ensures { result.now ≡ kinds.mode_text mode }
{
    match mode {
        Mode::Derived => "1",
        Mode::Commissioned => "2",
        Mode::Unicast => "3",
    }
}

fn put_source(text: &mut Vec<u8>, source: Src) -> Result<(), AllocError>
    ensures { OnOk result (text.new.items ≡ text.old.items ++ (32 ∷ Rattle.gp_script.specs.Kinds.source.text source)) }
{
    put_hex(text, &source.0.to_be_bytes())
}

fn put_dest(text: &mut Vec<u8>, dest: Dest) -> Result<(), AllocError>
    ensures { OnOk result (text.new.items ≡ text.old.items ++ (32 ∷ spec.dest_text dest)) }
{
    match dest {
        Dest::All => put_word(text, "all"),
        Dest::Group(group) => put_labelled(text, "group:", &group.to_be_bytes()),
        Dest::Node(address) => put_labelled(text, "node:", &address.to_be_bytes()),
    }
}

fn put_node(text: &mut Vec<u8>, node: &Option<crate::name::Name>) -> Result<(), AllocError>
    ensures { OnOk result (text.new.items ≡ text.old.items ++ (32 ∷ or_word_text (codes "-") (λ name. name) node.now)) }
{
    match node {
        Some(name) => put_name(text, name),
        None => put_word(text, "-"),
    }
}

fn put_name(text: &mut Vec<u8>, name: &crate::name::Name) -> Result<(), AllocError>
    ensures { OnOk result (text.new.items ≡ text.old.items ++ (32 ∷ name.now)) }
{
    text.push(b' ')?;
    text.extend_from_slice(name.as_slice())?;
    Ok(())
}
