//! A sink with its power.
ghost use Rattle.std.specs.Prelude.{◌≡◌, ◌≤◌, ◌+◌, ◌-◌, ◌^◌, ℕ, [], ◌∷◌, Some, None, IfOk, IfSome, MatchOption, OnErr};
ghost use Rattle.gp_disk.specs.Memory.{memory_fuse};
ghost use Rattle.gp_rows.specs.Rows.{IsTable};
ghost use Rattle.gp_script.specs.declared.report.Report.TheVariants as reports;
ghost use Rattle.gp_sink.specs.Sink.{IsMessage};
ghost use Rattle.gp_sink.specs.Verdict.{offered};
ghost use Rattle.gp_world.specs.Power.{at_running, adds_rule, arms, turns_off, turns_on, flickers};
ghost use Rattle.gp_world.specs.Sinks.{sink_hears, sink_pairs, sink_announces};
ghost use Rattle.gp_world.specs.Step.{new_sink};
ghost use Rattle.gp_world.specs.World as ideal;
ghost use Rattle.gp_power.specs.Said.{says_of, puts_of, says_announced, puts_announced, says_ruled, GivesSendable};

use crate::answer::Answer;
use crate::falling::fall;
use crate::sinks;
use crate::waking::{flicker, start, wake};
use gp_base::{NoMemory, Src};
use gp_cluster::Sent;
use gp_commission::Offer;
use gp_disk::MemoryDisk;
use gp_rows::Table;
use gp_script::{Report, RuleAnswer};
use gp_sink::{Config, Sink, SinkFault, Verdict};
use gp_translate::{Rule, Rules};
use std::alloc::Global;
use std::mem;

/// Whether a sink has power.
#[derive(Drop)]
pub enum Supply {
    /// It has: it runs, or is halted.
    On(Sink<MemoryDisk>),
    /// It has none: its rules and its disk are left.
    Off {
        /// Its rules.
        rules: Rules,
        /// Its disk.
        disk: MemoryDisk,
    },
    /// It is taken out, and another one comes into its place before a call ends.
    Moved,
}

/// A sink of a simulated network, over a disk in memory, with its power: it runs, has no power, or is halted because its disk has
/// failed. A cut of the power or a fault of the disk may be armed in one of its next commits.
#[derive(Drop)]
pub struct Powered {
    config: Config,
    supply: Supply,
    // The way in which the disk crashes at an armed cut.
    way: u8,
    ghost known: { way ≤ 4 },
}

impl Powered {
    ghost use Rattle.gp_power.specs.Comes.{Comes, Shows};
    ghost use Rattle.gp_power.specs.Few.{AreFew};
    ghost use Rattle.gp_power.specs.Inside.{Falls, IfOn, IsAfter, is_cut};
    ghost use Rattle.gp_power.specs.Stands.{StandsFor, StandsButArmed};

    /// A new sink, which runs over an empty disk of 204,800 octets with the standard rules. Nothing is armed.
    pub fn new(alloc: Global, config: Config) -> Result<Powered, NoMemory>
        ensures stands { IfOk result (λ powered. StandsFor powered (new_sink config)) }
        ensures config { IfOk result (λ powered. powered.config ≡ config) }
        ensures few { IfOk result (AreFew 0) }
    {
        let Ok(sink) = start(alloc, config) else {
            return Err(NoMemory);
        };
        Ok(Powered {
            config,
            supply: Supply::On(sink),
            way: 0,
        })
    }

    /// How it is set up, whatever its power.
    pub fn config(&self) -> &Config
        ensures { result.now ≡ self.now.config }
    {
        &self.config
    }

    // Whether the power is to be cut behind this answer: a verdict in an armed commit, or a fault because the disk has stopped.
    fn is_cut(&self, answer: &Result<Verdict, SinkFault>) -> bool
        ensures { IfOn self.now.supply (λ sink. result ≡ is_cut answer.now (memory_fuse sink.store.disk)) }
    {
        match (&self.supply, answer) {
            (Supply::On(sink), Ok(_)) => sink.due(),
            (Supply::On(sink), Err(_)) => sink.stopped(),
            _ => false,
        }
    }

    // The power of a sink that has it goes, and the disk crashes in this way.
    fn darken(&mut self, way: u8) -> Option<bool>
        requires { way ≤ 4 }
        ensures falls { IfOn self.old.supply (λ sink. Falls sink self.new.supply result) }
        ensures same { self.new ≡ record self.old { supply = self.new.supply } }
        ensures few { (most : ℕ) → AreFew most self.old → AreFew most self.new }
    {
        match mem::replace(&mut self.supply, Supply::Moved) {
            Supply::On(sink) => {
                let (rules, disk, bit) = fall(sink, way);
                self.supply = Supply::Off { rules, disk };
                bit
            }
            supply => {
                self.supply = supply;
                None
            }
        }
    }

    // What comes of a sink that has answered so.
    fn settle(&mut self, answer: Result<Verdict, SinkFault>) -> (Answer, Option<bool>)
        ensures after { IfOn self.old.supply (λ sink. IsAfter sink answer self.new.supply result.0 result.1) }
        ensures same { self.new ≡ record self.old { supply = self.new.supply } }
        ensures few { (most : ℕ) → AreFew most self.old → AreFew most self.new }
    {
        if self.is_cut(&answer) {
            let way = self.way;
            let bit = self.darken(way);
            return (Answer::Other(Report::Cut), Some(bit.unwrap_or(true)));
        }
        match answer {
            Ok(verdict) => (Answer::Verdict(verdict), None),
            Err(_) => (Answer::Other(Report::Halted), None),
        }
    }

    /// Octets reach the sink: its answer, and the bit of a change that a cut left undecided, where there was one.
    pub fn hear(&mut self, octets: &[u8]) -> (Answer, Option<bool>)
        requires room { AreFew (2 ^ 64 - 2) self.old }
        ensures comes { Comes (at_running (sink_hears octets.now)) (says_of result.0) (puts_of result.0) self.old self.new result.1 }
        ensures message { GivesSendable result.0 }
        ensures few { (most : ℕ) → AreFew most self.old → AreFew (most + 2) self.new }
        ensures config { self.new.config ≡ self.old.config }
    {
        match &mut self.supply {
            Supply::On(sink) => {
                let answer = sinks::hear(sink, octets);
                self.settle(answer)
            }
            _ => (Answer::Other(Report::Dark), None),
        }
    }

    /// The sink is to pair a device: its answer, and the bit of a change that a cut left undecided, where there was one.
    pub fn pair(&mut self, offer: &Offer) -> (Answer, Option<bool>)
        requires room { AreFew (2 ^ 64 - 2) self.old }
        ensures comes { Comes (at_running (λ sink. sink_pairs (offered sink.config offer.now) offer.now.counter sink)) (says_of result.0) (puts_of result.0) self.old self.new result.1 }
        ensures message { GivesSendable result.0 }
        ensures few { (most : ℕ) → AreFew most self.old → AreFew (most + 2) self.new }
        ensures config { self.new.config ≡ self.old.config }
    {
        match &mut self.supply {
            Supply::On(sink) => {
                let answer = sinks::pair(sink, offer);
                self.settle(answer)
            }
            _ => (Answer::Other(Report::Dark), None),
        }
    }

    /// The message that tells proxies again of a current pairing, where there is one; or the report of a sink that doesn't run:
    /// `Dark` or `Halted`.
    pub fn announce(&self, source: Src) -> Result<Option<Sent>, Report>
        ensures comes { Comes (at_running (sink_announces source)) (says_announced result) (puts_announced result) self.now self.now None }
        ensures message { IfOk result (λ sent. IfSome sent IsMessage) }
    {
        match &self.supply {
            Supply::On(sink) => match sink.announce(source) {
                Ok(sent) => Ok(sent),
                Err(_) => Err(Report::Halted),
            },
            _ => Err(Report::Dark),
        }
    }

    /// A rule is added, or refused, whatever the power.
    pub fn add_rule(&mut self, rule: Rule) -> RuleAnswer
        ensures comes { Comes (λ bit. adds_rule rule) (says_ruled result) [] self.old self.new None }
        ensures few { (most : ℕ) → AreFew most self.old → AreFew most self.new }
        ensures config { self.new.config ≡ self.old.config }
    {
        match &mut self.supply {
            Supply::On(sink) => sinks::add_rule(sink, rule),
            Supply::Off { rules, .. } => sinks::add_to(rules, rule),
            Supply::Moved => RuleAnswer::Form,
        }
    }

    /// The rows, of a halted sink too; none without power.
    pub fn rows(&self) -> Option<&Table>
        ensures shows { (model : ideal.Powered) → StandsFor self.now model → MatchOption result (Shows None model) (λ rows. Shows (Some rows.now) model) }
        ensures table { IfSome result (λ rows. IsTable rows.now) }
    {
        match &self.supply {
            Supply::On(sink) => Some(sink.rows()),
            _ => None,
        }
    }

    /// Arms a cut of the power, in place of what was armed: in the commit of this number from now on, of which the next is 1, once
    /// so many of its device calls have returned. The disk then crashes in this way.
    pub fn arm_cut(&mut self, commit: u32, calls: u16, way: u8)
        requires some { 1 ≤ commit }
        requires few { commit ≤ 1000000 }
        requires known { way ≤ 4 }
        ensures comes { Comes (λ bit. arms (ideal.ToCut commit calls)) (reports.Armed ∷ []) [] self.old self.new None }
        ensures few { (most : ℕ) → AreFew most self.old → AreFew most self.new }
        ensures config { self.new.config ≡ self.old.config }
    {
        self.way = way;
        match &mut self.supply {
            Supply::On(sink) => sink.arm_cut(u64::from(commit), u64::from(calls)),
            Supply::Off { disk, .. } => disk.arm_cut(u64::from(commit), u64::from(calls)),
            Supply::Moved => {}
        }
    }

    /// Arms a fault of the disk, in place of what was armed: in the commit of this number from now on, of which the next is 1, the
    /// device call behind so many fails, or the fourth where they are more than three.
    pub fn arm_fault(&mut self, commit: u32, calls: u16)
        requires some { 1 ≤ commit }
        requires few { commit ≤ 1000000 }
        ensures comes { Comes (λ bit. arms (ideal.ToFail commit calls)) (reports.Armed ∷ []) [] self.old self.new None }
        ensures few { (most : ℕ) → AreFew most self.old → AreFew most self.new }
        ensures config { self.new.config ≡ self.old.config }
    {
        let calls = calls.min(3);
        match &mut self.supply {
            Supply::On(sink) => sink.arm_fault(u64::from(commit), u64::from(calls)),
            Supply::Off { disk, .. } => disk.arm_fault(u64::from(commit), u64::from(calls)),
            Supply::Moved => {}
        }
    }

    /// The power comes: `Up` with the number of rows, or `Running` where it was there. What is armed stays so. `NoMemory` where
    /// there is none for the rows: the sink is as it was.
    pub fn switch_on(&mut self, alloc: Global) -> Result<Report, NoMemory>
        ensures comes { IfOk result (λ report. Comes (λ bit. turns_on) (report ∷ []) [] self.old self.new None) }
        ensures same { OnErr result ((model : ideal.Powered) → StandsFor self.old model → StandsFor self.new model) }
        ensures few { (most : ℕ) → AreFew most self.old → AreFew most self.new }
        ensures config { self.new.config ≡ self.old.config }
    {
        match mem::replace(&mut self.supply, Supply::Moved) {
            Supply::Off { rules, disk } => match wake(alloc, self.config, &rules, disk) {
                Ok(sink) => {
                    let count = sink.rows().count();
                    self.supply = Supply::On(sink);
                    Ok(Report::Up { rows: count })
                }
                Err(disk) => {
                    self.supply = Supply::Off { rules, disk };
                    Err(NoMemory)
                }
            },
            supply => {
                self.supply = supply;
                Ok(Report::Running)
            }
        }
    }

    /// The power comes, and goes again once so many device calls of the recovery have returned, or behind the last: `Cut`, or
    /// `Running` where it was there. The disk crashes in this way, and nothing is armed then. `NoMemory` where there is none for
    /// the rows: the sink has no power, and another arming.
    pub fn flicker(&mut self, alloc: Global, calls: u16, way: u8) -> Result<Report, NoMemory>
        requires { way ≤ 4 }
        ensures comes { IfOk result (λ report. Comes (λ bit. flickers) (report ∷ []) [] self.old self.new None) }
        ensures same { OnErr result ((model : ideal.Powered) → StandsFor self.old model → StandsButArmed self.new model) }
        ensures few { (most : ℕ) → AreFew most self.old → AreFew most self.new }
        ensures config { self.new.config ≡ self.old.config }
    {
        match mem::replace(&mut self.supply, Supply::Moved) {
            Supply::Off { rules, disk } => match flicker(alloc, disk, calls, way) {
                Ok(disk) => {
                    self.supply = Supply::Off { rules, disk };
                    Ok(Report::Cut)
                }
                Err(disk) => {
                    self.supply = Supply::Off { rules, disk };
                    self.way = way;
                    Err(NoMemory)
                }
            },
            supply => {
                self.supply = supply;
                Ok(Report::Running)
            }
        }
    }

    /// The power goes, between two events: `Off`, or `Dark` where there is none; and the bit of an open change, where there is one.
    /// What is armed stays so.
    pub fn switch_off(&mut self) -> (Report, Option<bool>)
        ensures comes { Comes turns_off (result.0 ∷ []) [] self.old self.new result.1 }
        ensures few { (most : ℕ) → AreFew most self.old → AreFew most self.new }
        ensures config { self.new.config ≡ self.old.config }
    {
        match &self.supply {
            Supply::On(_) => {
                let bit = self.darken(0);
                (Report::Off, bit)
            }
            _ => (Report::Dark, None),
        }
    }
}
