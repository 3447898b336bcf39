//! A sink that is set up.

ghost use Rattle.std.specs.Prelude.{◌≡◌, ◌+◌, ◌-◌, ◌<◌, ◌≤◌, ◌^◌, Ok, IfErr, IfOk, IfSome, OnOk, false, vec_capacity};
ghost use Rattle.gp_ideal.specs.Heard.{heard};
ghost use Rattle.gp_ideal.specs.Paired.{paired};
ghost use Rattle.gp_world.specs.Life.{Life};
ghost use Rattle.gp_world.specs.Sinks as sinks;
ghost use Rattle.gp_world.specs.World.{Sink as IdealSink};
ghost use Rattle.gp_sink.specs.Sink.{GivesMessage, IsMessage};
ghost use Rattle.gp_sink.specs.Verdict.{offered};
ghost use Rattle.gp_life.specs.Inside.{ActionComes, Answers, EffectComes, IsBlank, IsLifeOf, IsNew, IsQuiet, IsReady, IsRuled, IsSinkOf, NeedsRoom, Plays, Puts, RunsOn, Tells, halt_of};

use gp_base::{Src, Steps};
use gp_cluster::Sent;
use gp_commission::Offer;
use gp_disk::Disk;
use gp_lines::Halt;
use gp_script::{Cause, Dropped, LineReason, Name, Report, RuleAnswer, SinkAction};
use gp_sink::{Sink, SinkFault, Verdict};
use gp_telling::{Telling, offer_of, put_report, rule_of};
use gp_translate::{Rule, RuleReason};
use std::alloc::Global;
use std::marker::Brand;
use std::sync::ledger::{Blank, Ledger};

/// Room for the entries of a line that lists rows, and of any other.
const ROWS_ROOM: usize = 1_025;

const ROOM: usize = 6;

/// A sink that is set up, and how many messages it has sent.
pub struct Awake<D: Disk> {
    /// The sink.
    pub sink: Sink<D>,
    /// How many messages it has sent.
    pub sent: u64,
}

// How many entries a line may have.
fn room_for(action: &SinkAction) -> usize
    ensures some { 6 ≤ result }
    ensures rows { NeedsRoom action.now result }
{
    match action {
        SinkAction::Table => ROWS_ROOM,
        _ => ROOM,
    }
}

// A sink hears octets. Blocks of the cipher aren't counted.
fn hear<D: Disk>(sink: &mut Sink<D>, octets: &[u8]) -> Result<Verdict, SinkFault>
    requires runs { sink.old.store.halted ≡ false }
    ensures answers { (model : IdealSink) → IsSinkOf D.Disk sink.old model → Answers D.Disk model (heard model.rules model.ledger octets.now) sink.old sink.new result }
    ensures message { IfOk result GivesMessage }
    ensures runs { OnOk result (sink.new.store.halted ≡ false) }
    ensures fault { IfErr result IsNew }
{
    hear_counted::<Brand, D>(sink, octets, Blank::new(1))
}

// The same, by steps of its own.
fn hear_counted<L: Ledger, D: Disk>(
    sink: &mut Sink<D>,
    octets: &[u8],
    blank: Blank,
) -> Result<Verdict, SinkFault>
    requires name { blank.name ≡ L.name }
    requires parts { blank.parts ≡ L.parts }
    requires some { 0 < L.parts }
    requires runs { sink.old.store.halted ≡ false }
    ensures answers { (model : IdealSink) → IsSinkOf D.Disk sink.old model → Answers D.Disk model (heard model.rules model.ledger octets.now) sink.old sink.new result }
    ensures message { IfOk result GivesMessage }
    ensures runs { OnOk result (sink.new.store.halted ≡ false) }
    ensures fault { IfErr result IsNew }
{
    let mut steps = Steps::<L>::new(blank);
    sink.hear(octets, &mut steps)
}

// A sink is to pair a device.
fn pair<D: Disk>(sink: &mut Sink<D>, offer: &Offer) -> Result<Verdict, SinkFault>
    requires runs { sink.old.store.halted ≡ false }
    ensures answers { (model : IdealSink) → IsSinkOf D.Disk sink.old model
        → Answers D.Disk model (paired model.config model.ledger (offered model.config offer.now) offer.now.counter) sink.old sink.new result }
    ensures message { IfOk result GivesMessage }
    ensures runs { OnOk result (sink.new.store.halted ≡ false) }
    ensures fault { IfErr result IsNew }
{
    sink.pair(offer)
}

// A rule is to be added to a sink's.
fn add_rule<D: Disk>(sink: &mut Sink<D>, rule: Rule) -> RuleAnswer
    ensures { IsRuled rule sink.old sink.new result }
{
    match sink.add_rule(rule) {
        Ok(()) => RuleAnswer::Added,
        Err(RuleReason::Form) => RuleAnswer::Form,
        Err(RuleReason::Full) => RuleAnswer::Full,
        Err(RuleReason::Many) => RuleAnswer::Many,
    }
}

// The message of a verdict, where it has one.
fn message_of(verdict: Verdict) -> Option<Sent>
    requires { GivesMessage verdict }
    ensures puts { Puts verdict result }
    ensures message { IfSome result IsMessage }
{
    match verdict {
        Verdict::Paired { message, .. } => Some(message),
        Verdict::Unpaired { message, .. } => Some(message),
        _ => None,
    }
}

// An answer of a sink that isn't halted, as it ends a life.
fn ends(fault: SinkFault) -> Halt
    requires { IsNew fault }
    ensures { result ≡ halt_of fault }
{
    match fault {
        SinkFault::Halted => unreachable!(),
        SinkFault::Worn { generation } => Halt::Worn { generation },
        SinkFault::DiskFault => Halt::DiskFault,
    }
}

impl<D: Disk> Awake<D> {
    /// Plays an action, and adds the text of what is reported.
    pub fn play(
        &mut self,
        alloc: Global,
        number: u64,
        action: &SinkAction,
        text: &mut Vec<u8>,
    ) -> Result<(), Halt>
        requires ready { IsReady self.old }
        ensures plays { Plays D.Disk number action.now self.old self.new text.old.items text.new.items result }
        ensures runs { OnOk result (RunsOn self.old self.new) }
    {
        let Ok(mut telling) = Telling::new(alloc, number, room_for(action)) else {
            return Err(Halt::NoMemory);
        };
        match self.happen(&mut telling, action) {
            Ok(()) => {}
            Err(halt) => return Err(halt),
        }
        let told = telling.into_lines();
        match put_report(alloc, told.as_slice(), text) {
            Ok(()) => Ok(()),
            Err(_) => Err(Halt::NoMemory),
        }
    }

    // Plays an action: what is told, or why the life ends.
    fn happen(&mut self, telling: &mut Telling, action: &SinkAction) -> Result<(), Halt>
        requires ready { IsReady self.old }
        requires blank { IsBlank telling.old }
        requires rows { NeedsRoom action.now (vec_capacity telling.old.entries) }
        ensures comes { (life : Life) → IsLifeOf D.Disk self.old life → ActionComes D.Disk life action.now self.old self.new telling.old telling.new result }
        ensures runs { OnOk result (RunsOn self.old self.new) }
    {
        match action {
            SinkAction::Config { .. } => Err(Halt::Bad(LineReason::Form)),
            SinkAction::Hear { octets } => match self.hear(telling, octets.as_slice()) {
                Ok(()) => Ok(()),
                Err(fault) => Err(ends(fault)),
            },
            SinkAction::Pair {
                source,
                key,
                kind,
                level,
                device,
                counter,
            } => {
                let offer = offer_of(*source, *key, *kind, *level, *device, *counter);
                match self.pair(telling, &offer) {
                    Ok(()) => Ok(()),
                    Err(fault) => Err(ends(fault)),
                }
            }
            other => {
                self.tell_of(telling, other);
                Ok(())
            }
        }
    }

    // Octets reach the sink.
    fn hear(&mut self, telling: &mut Telling, octets: &[u8]) -> Result<(), SinkFault>
        requires ready { IsReady self.old }
        requires blank { IsBlank telling.old }
        ensures fault { IfErr result IsNew }
        ensures comes { (life : Life) → IsLifeOf D.Disk self.old life → EffectComes D.Disk life (sinks.sink_hears octets.now life.sink) self.old self.new telling.old telling.new result }
        ensures runs { OnOk result (RunsOn self.old self.new) }
    {
        match hear(&mut self.sink, octets) {
            Ok(verdict) => {
                self.tell(telling, verdict);
                Ok(())
            }
            Err(fault) => Err(fault),
        }
    }

    // A device is to be paired with the sink.
    fn pair(&mut self, telling: &mut Telling, offer: &Offer) -> Result<(), SinkFault>
        requires ready { IsReady self.old }
        requires blank { IsBlank telling.old }
        ensures fault { IfErr result IsNew }
        ensures comes { (life : Life) → IsLifeOf D.Disk self.old life
            → EffectComes D.Disk life (sinks.sink_pairs (offered life.sink.config offer.now) offer.now.counter life.sink) self.old self.new telling.old telling.new result }
        ensures runs { OnOk result (RunsOn self.old self.new) }
    {
        match pair(&mut self.sink, offer) {
            Ok(verdict) => {
                self.tell(telling, verdict);
                Ok(())
            }
            Err(fault) => Err(fault),
        }
    }

    // The sink reports a verdict, with its acts, and puts its message.
    fn tell(&mut self, telling: &mut Telling, verdict: Verdict)
        requires message { GivesMessage verdict }
        requires blank { IsBlank telling.old }
        requires ready { IsReady self.old }
        ensures { Tells verdict self.old self.new telling.old telling.new }
    {
        let name = Name::own();
        telling.tell(&name, &verdict);
        if let Some(sent) = message_of(verdict) {
            telling.put(&name, self.sent, sent);
            self.sent += 1;
        }
    }

    // An action that changes nothing on the disk.
    fn tell_of(&mut self, telling: &mut Telling, action: &SinkAction)
        requires ready { IsReady self.old }
        requires action { IsQuiet action.now }
        requires blank { IsBlank telling.old }
        requires rows { NeedsRoom action.now (vec_capacity telling.old.entries) }
        ensures comes { (life : Life) → IsLifeOf D.Disk self.old life → ActionComes D.Disk life action.now self.old self.new telling.old telling.new (Ok tt) }
        ensures runs { RunsOn self.old self.new }
    {
        match action {
            SinkAction::Rule {
                source,
                command,
                endpoint,
                form,
            } => {
                let rule = rule_of(*source, *command, *endpoint, form);
                self.add_rule(telling, rule);
            }
            SinkAction::Announce { source } => self.announce(telling, *source),
            SinkAction::Table => telling.list(&Name::own(), self.sink.rows()),
            _ => unreachable!(),
        }
    }

    // A rule is to be added to the sink's.
    fn add_rule(&mut self, telling: &mut Telling, rule: Rule)
        requires ready { IsReady self.old }
        requires blank { IsBlank telling.old }
        ensures comes { (life : Life) → IsLifeOf D.Disk self.old life → EffectComes D.Disk life (sinks.sink_rules rule life.sink) self.old self.new telling.old telling.new (Ok tt) }
        ensures runs { RunsOn self.old self.new }
    {
        let answer = add_rule(&mut self.sink, rule);
        telling.say(&Name::own(), Report::Rule { answer });
    }

    // The sink tells of a current pairing again.
    fn announce(&mut self, telling: &mut Telling, source: Src)
        requires ready { IsReady self.old }
        requires blank { IsBlank telling.old }
        ensures comes { (life : Life) → IsLifeOf D.Disk self.old life → EffectComes D.Disk life (sinks.sink_announces source life.sink) self.old self.new telling.old telling.new (Ok tt) }
        ensures runs { RunsOn self.old self.new }
    {
        let name = Name::own();
        match self.sink.announce(source) {
            Ok(Some(sent)) => {
                telling.put(&name, self.sent, sent);
                self.sent += 1;
            }
            Ok(None) => telling.say(
                &name,
                Report::Drop {
                    cause: Dropped::Plain(Cause::Unknown),
                },
            ),
            Err(_) => unreachable!(),
        }
    }

    /// The disk.
    pub fn into_disk(self) -> D
        ensures { result ≡ self.sink.store.disk }
    {
        let Awake { sink, sent: _ } = self;
        sink.into_disk()
    }
}
