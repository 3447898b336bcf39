//! What nodes report in one line of a script.
ghost use Rattle.std.specs.Prelude.{◌≡◌, ◌+◌, ◌<◌, ◌≤◌, List, [], ◌∷◌, ◌++◌, Option, Some, None, IfOk, MatchOption, map, take, length, vec_capacity};
ghost use Rattle.gp_ideal.specs.Messages as messages;
ghost use Rattle.gp_world.specs.Sinks as sinks;
ghost use Rattle.gp_world.specs.World as ideal;
ghost use Rattle.gp_sink.specs.Verdict.{verdict_of};
ghost use Rattle.gp_sink.specs.Sink.{IsMessage};
ghost use Rattle.gp_telling.specs.Telling.{Said, HasNoActs, listed, listed_row};
ghost use Rattle.gp_script.specs.declared.report.Report.TheVariants.{Rows};

use crate::words::{cause_of, refusal_of};
use gp_base::place::put_last;
use gp_base::{NoMemory, Octets};
use gp_cluster::{Dest as Address, Sent, Zcl, encode};
use gp_rows::{Row, Table};
use gp_script::{Dest, Entry, Name, Refusal, Report};
use gp_sink::Verdict;
use gp_translate::Act;
use std::alloc::Global;
use std::marker::Model;

/// The entries of one line of a script, in their order.
#[derive(Debug, Drop)]
pub struct Lines {
    entries: Vec<Entry>,
}

impl Model for Lines {
    ghost use Rattle.std.specs.Prelude.{List};
    ghost use Rattle.gp_script.specs.declared.report.Entry.{Entry};

    ghost Value = { List Entry };

    ghost view = { λ l. l.entries.items };
}

impl Lines {
    /// The entries, in their order.
    pub fn as_slice(&self) -> &[Entry]
        ensures { result.now ≡ self.now }
    {
        self.entries.as_slice()
    }
}

/// The entries of a line as they are told.
#[derive(Drop)]
pub struct Telling {
    pub line: u64,
    pub entries: Vec<Entry>,
}

impl Telling {
    /// Nothing is told yet, and there is room for so many entries.
    pub fn new(alloc: Global, line: u64, room: usize) -> Result<Telling, NoMemory>
        ensures line { IfOk result (λ telling. telling.line ≡ line) }
        ensures empty { IfOk result (λ telling. telling.entries.items ≡ []) }
        ensures room { IfOk result (λ telling. room ≤ vec_capacity telling.entries) }
    {
        match Vec::with_capacity(alloc, room) {
            Ok(entries) => Ok(Telling { line, entries }),
            Err(_) => Err(NoMemory),
        }
    }

    /// All that was told.
    pub fn into_lines(self) -> Lines
        ensures { result ≡ self.entries.items }
    {
        let Telling { line: _, entries } = self;
        Lines { entries }
    }

    /// A node reports.
    pub fn say(&mut self, name: &Name, report: Report)
        requires { length self.old.entries.items < vec_capacity self.old.entries }
        ensures { Said (Some name.now) (report ∷ []) self.old self.new }
    {
        let entry = Entry {
            line: self.line,
            node: Some(name.copy()),
            report,
        };
        put_last(&mut self.entries, entry);
    }

    /// A sink reports acts.
    fn act(&mut self, name: &Name, acts: &[Act])
        requires { length self.old.entries.items + length acts.now ≤ vec_capacity self.old.entries }
        ensures { Said (Some name.now) (map sinks.act_report acts.now) self.old self.new }
    {
        for act in acts {
            self.say(
                name,
                Report::Zcl {
                    endpoint: act.endpoint,
                    cluster: act.cluster,
                    general: act.general,
                    command: act.zcl,
                    payload: act.payload.copy(),
                },
            );
        }
    }

    /// A sink reports a verdict, with each of its acts.
    pub fn tell(&mut self, name: &Name, verdict: &Verdict)
        requires { length self.old.entries.items + 5 ≤ vec_capacity self.old.entries }
        ensures { Said (Some name.now) (sinks.verdict_reports (verdict_of verdict.now)) self.old self.new }
    {
        match verdict {
            Verdict::Acted {
                row,
                source,
                counter,
                command,
                acts,
            } => {
                let acts = acts.as_slice();
                let report = Report::Acted {
                    row: *row,
                    source: *source,
                    counter: *counter,
                    command: *command,
                    count: acts.len() as u8,
                };
                self.say(name, report);
                self.act(name, acts);
            }
            other => self.say(name, report_of(other)),
        }
    }

    /// A node reports a message that it sends, under its number.
    pub fn put(&mut self, name: &Name, message: u64, sent: Sent)
        requires room { length self.old.entries.items < vec_capacity self.old.entries }
        requires message { IsMessage sent }
        ensures { Said (Some name.now) (ideal.put_reports message (sent ∷ [])) self.old self.new }
    {
        self.say(
            name,
            Report::Put {
                message,
                dest: dest_of(sent.to),
                octets: octets_of(message, sent),
            },
        );
    }

    /// Octets came on the air that no node sent, under this number.
    pub fn inject(&mut self, frame: u64, octets: &Octets)
        requires { length self.old.entries.items < vec_capacity self.old.entries }
        ensures { Said None (ideal.air_reports frame (octets.now ∷ [])) self.old self.new }
    {
        let entry = Entry {
            line: self.line,
            node: None,
            report: Report::Air {
                frame,
                octets: octets.copy(),
            },
        };
        put_last(&mut self.entries, entry);
    }

    /// A sink lists its rows.
    pub fn list(&mut self, name: &Name, table: &Table)
        requires { length self.old.entries.items + length table.now + 1 ≤ vec_capacity self.old.entries }
        ensures { Said (Some name.now) (Rows (length table.now) ∷ listed 0 table.now) self.old self.new }
    {
        let count = table.count();
        self.say(name, Report::Rows { count });
        for at in 0..count {
            self.say(name, row_report(at, table.row(at)));
        }
    }

    /// A node reports a frame that it sends, under its number.
    pub fn air(&mut self, name: &Name, frame: u64, octets: &Octets)
        requires { length self.old.entries.items < vec_capacity self.old.entries }
        ensures { Said (Some name.now) (ideal.air_reports frame (octets.now ∷ [])) self.old self.new }
    {
        self.say(
            name,
            Report::Air {
                frame,
                octets: octets.copy(),
            },
        );
    }
}

// The report of a verdict that has no acts.
fn report_of(verdict: &Verdict) -> Report
    requires { HasNoActs verdict.now }
    ensures { sinks.verdict_reports (verdict_of verdict.now) ≡ result ∷ [] }
{
    match verdict {
        Verdict::Acted { .. } => unreachable!(),
        Verdict::Paired {
            row,
            source,
            floor,
            ..
        } => Report::Paired {
            row: *row,
            source: *source,
            floor: *floor,
        },
        Verdict::Unpaired {
            row,
            source,
            counter,
            ..
        } => Report::Unpaired {
            row: *row,
            source: *source,
            counter: *counter,
        },
        Verdict::Refused(reason) => Report::Refused {
            reason: refusal_of(*reason),
        },
        Verdict::Full => Report::Refused {
            reason: Refusal::TableFull,
        },
        Verdict::Dropped(cause) => Report::Drop {
            cause: cause_of(*cause),
        },
    }
}

// Where a message goes.
fn dest_of(address: Address) -> Dest
    ensures { result ≡ messages.dest_word address }
{
    match address {
        Address::All => Dest::All,
        Address::GroupOf(group) => Dest::Group(group),
        Address::NodeAt(address) => Dest::Node(address),
    }
}

// The octets of the message with this number.
fn octets_of(number: u64, sent: Sent) -> Octets
    requires { IsMessage sent }
    ensures { result ≡ messages.octets_of number sent }
{
    encode(&Zcl {
        quiet: true,
        sequence: (number % 256) as u8,
        body: sent.body,
    })
}

// A row as it is listed.
fn row_report(at: u16, row: &Row) -> Report
    ensures { result ≡ listed_row at row.now }
{
    Report::Row {
        row: at,
        source: row.src,
        kind: row.kind,
        level: row.level,
        mode: row.mode,
        group: row.group,
        device: row.device,
        live: row.live,
        floor: row.floor,
    }
}
