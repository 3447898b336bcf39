//! A network: the frames on the air, how many messages were sent, and the nodes.
ghost use Rattle.std.specs.Prelude.{◌≡◌, ◌||◌, ◌<◌, ◌≤◌, ◌+◌, ◌-◌, ◌^◌, ◌++◌, ℕ, length, Ok, Some, None, true, false, IfSome, IfNone, IfErr, OnOk, OnErr, is_some, vec_capacity};
ghost use Rattle.std.specs.List.{count_by, list_any};
ghost use Rattle.gp_sink.specs.Sink.{GivesMessage};
ghost use Rattle.gp_sink.specs.Verdict.{verdict_of};
ghost use Rattle.gp_world.specs.Devices.{device_presses};
ghost use Rattle.gp_world.specs.Power.{lists};
ghost use Rattle.gp_world.specs.Sinks.{verdict_reports, verdict_puts};
ghost use Rattle.gp_world.specs.Step as steps;
ghost use Rattle.gp_world.specs.World.{World, entries, put_reports, injected};
ghost use Rattle.gp_net.specs.Devices.{ideal_of};
ghost use Rattle.gp_net.specs.Inside.{place, is_a_device, is_a_sink, is_at, IsPlaceOf, HasNone, IsReady, IsAction, IsAtSink, IsLeft, IsLeftBy, MakesNoNode, NeedsRoom, HasRoom, Joins, ComesTo, ComesOf, Told};
ghost use Rattle.gp_net.specs.Net.{IsNetOf, IsSameNet};
ghost use Rattle.gp_net.specs.Replies.{asked, says, puts, switched, IsReply, IsRequest, IsSwitch};
ghost use Rattle.gp_net.specs.Steady.{IsSteadyNet};

use crate::device::Device;
use crate::fault::NetFault;
use crate::node::{Kind, Node};
use crate::reply::{Reply, Request, Switch};
use gp_base::place::put_last;
use gp_base::{NoMemory, Octets};
use gp_power::{Powered, message_of};
use gp_script::{Action, LineReason, Name, Report};
use gp_sink::{Config, Verdict};
use gp_telling::{Telling, config_of, offer_of, rule_of};
use std::alloc::Global;

/// The most sinks, and the most devices.
const MOST: usize = 64;

/// The frames on the air, how many messages were sent, and the nodes under their names.
#[derive(Drop)]
pub struct Net {
    pub air: Vec<Octets>,
    pub sent: u64,
    pub nodes: Vec<(Name, Node)>,
}

// The place of the first node of this name.
fn place_of(nodes: &[(Name, Node)], name: &Name) -> Option<usize>
    ensures first { result ≡ place name.now nodes.now }
    ensures below { IfSome result (λ at. at < length nodes.now) }
{
    let mut at = 0;
    for node in nodes {
        if node.0.as_slice() == name.as_slice() {
            return Some(at);
        }
        at += 1;
    }
    None
}

// The place of the sink of this name.
fn sink_at(nodes: &[(Name, Node)], name: &Name) -> Option<usize>
    ensures found { IfSome result (IsPlaceOf true nodes.now name.now) }
    ensures absent { IfNone result (HasNone true nodes.now name.now) }
{
    let at = place_of(nodes, name)?;
    if nodes[at].1.kind.is_sink() {
        return Some(at);
    }
    None
}

// The place of the device of this name.
fn device_at(nodes: &[(Name, Node)], name: &Name) -> Option<usize>
    ensures found { IfSome result (IsPlaceOf false nodes.now name.now) }
    ensures absent { IfNone result (HasNone false nodes.now name.now) }
{
    let at = place_of(nodes, name)?;
    if nodes[at].1.kind.is_sink() {
        return None;
    }
    Some(at)
}

// Whether a node has this name.
fn is_taken(nodes: &[(Name, Node)], name: &Name) -> bool
    ensures { result ≡ is_some (place name.now nodes.now) }
{
    place_of(nodes, name).is_some()
}

// Whether a node has this address.
#[tactic(auto, unfolding(crate::specs::Inside::is_at))]
fn has_address(nodes: &[(Name, Node)], address: u16) -> bool
    ensures { result ≡ list_any (is_at address) nodes.now }
{
    nodes.iter().any(|node| node.1.kind.has_address(address))
}

// Whether a node has this name or this address.
fn is_claimed(nodes: &[(Name, Node)], name: &Name, address: u16) -> bool
    ensures { result ≡ (is_some (place name.now nodes.now) || list_any (is_at address) nodes.now) }
{
    is_taken(nodes, name) || has_address(nodes, address)
}

// How many sinks there are.
#[tactic(auto, unfolding(crate::specs::Inside::is_a_sink))]
fn sinks_among(nodes: &[(Name, Node)]) -> usize
    ensures { result ≡ count_by is_a_sink nodes.now }
{
    let mut count = 0;
    for node in nodes {
        if node.1.kind.is_sink() {
            count += 1;
        }
    }
    count
}

// How many devices there are.
#[tactic(auto, unfolding(crate::specs::Inside::is_a_device))]
fn devices_among(nodes: &[(Name, Node)]) -> usize
    ensures { result ≡ count_by is_a_device nodes.now }
{
    let mut count = 0;
    for node in nodes {
        if !node.1.kind.is_sink() {
            count += 1;
        }
    }
    count
}

impl Net {
    /// Sets room aside for one more frame and one more node.
    pub fn make_room(&mut self) -> Result<(), NoMemory>
        ensures room { OnOk result (HasRoom self.new) }
        ensures same { IsSameNet self.old self.new }
    {
        let Ok(()) = self.air.reserve(1) else {
            return Err(NoMemory);
        };
        let Ok(()) = self.nodes.reserve(1) else {
            return Err(NoMemory);
        };
        Ok(())
    }

    // A node reports what it replied, and puts its message.
    fn tell(&mut self, telling: &mut Telling, name: &Name, reply: Reply)
        requires reply { IsReply reply }
        requires room { length telling.old.entries.items + 6 ≤ vec_capacity telling.old.entries }
        requires few { self.old.sent < 2 ^ 64 - 1 }
        ensures told { Told (entries telling.old.line (Some name.now) (says reply ++ put_reports self.old.sent (puts reply))) telling.old telling.new }
        ensures sent { self.new ≡ record self.old { sent = self.old.sent + length (puts reply) } }
    {
        match reply {
            Reply::Verdict(verdict) => self.tell_verdict(telling, name, verdict),
            Reply::Put(sent) => {
                telling.put(name, self.sent, sent);
                self.sent += 1;
            }
            Reply::Report(report) => telling.say(name, report),
        }
    }

    // A sink reports a verdict, with its acts, and puts its message.
    fn tell_verdict(&mut self, telling: &mut Telling, name: &Name, verdict: Verdict)
        requires message { GivesMessage verdict }
        requires room { length telling.old.entries.items + 6 ≤ vec_capacity telling.old.entries }
        requires few { self.old.sent < 2 ^ 64 - 1 }
        ensures told { Told (entries telling.old.line (Some name.now) (verdict_reports (verdict_of verdict) ++ put_reports self.old.sent (verdict_puts (verdict_of verdict)))) telling.old telling.new }
        ensures sent { self.new ≡ record self.old { sent = self.old.sent + length (verdict_puts (verdict_of verdict)) } }
    {
        telling.tell(name, &verdict);
        if let Some(sent) = message_of(verdict) {
            telling.put(name, self.sent, sent);
            self.sent += 1;
        }
    }

    // The frame of this number reaches the node of this name.
    fn hear(
        &mut self,
        telling: &mut Telling,
        reading: u64,
        frame: u64,
        name: &Name,
    ) -> Result<Option<bool>, LineReason>
        requires ready { IsReady self.old telling.old }
        ensures comes { (model : World) → IsNetOf self.old model → ComesTo (λ bit. steps.hears model telling.old.line reading frame name.now bit) self.new telling.old telling.new result }
        ensures kept { OnErr result (self.new ≡ self.old) }
        ensures steady { IsSteadyNet telling.old.line self.new }
    {
        let Some(at) = place_of(&self.nodes, name) else {
            return Err(LineReason::Absent);
        };
        let Some(octets) = self.air.get(frame as usize) else {
            return Err(LineReason::Missing);
        };
        let node = &mut self.nodes[at].1;
        let (reply, bit) = node.hear(reading, octets.as_slice());
        self.tell(telling, name, reply);
        Ok(bit)
    }

    // A line asks something of the sink of this name.
    fn ask(
        &mut self,
        telling: &mut Telling,
        reading: u64,
        name: &Name,
        request: Request,
    ) -> Result<Option<bool>, LineReason>
        requires ready { IsReady self.old telling.old }
        requires request { IsRequest request }
        ensures comes { (model : World) → IsNetOf self.old model → ComesTo (λ bit. steps.at_sink model telling.old.line reading name.now (asked request bit)) self.new telling.old telling.new result }
        ensures kept { OnErr result (self.new ≡ self.old) }
        ensures steady { IsSteadyNet telling.old.line self.new }
    {
        let Some(at) = sink_at(&self.nodes, name) else {
            return Err(LineReason::Absent);
        };
        let node = &mut self.nodes[at].1;
        let (reply, bit) = node.ask(reading, request);
        self.tell(telling, name, reply);
        Ok(bit)
    }

    // The sink of this name is switched on.
    fn switch_on(
        &mut self,
        alloc: Global,
        telling: &mut Telling,
        reading: u64,
        name: &Name,
        switch: Switch,
    ) -> Result<Option<bool>, NetFault>
        requires ready { IsReady self.old telling.old }
        requires switch { IsSwitch switch }
        ensures comes { (model : World) → IsNetOf self.old model → ComesOf (λ bit. steps.at_sink model telling.old.line reading name.now (switched switch)) self.new telling.old telling.new result }
        ensures left { IfErr result (λ fault. IsLeftBy name.now fault self.old self.new) }
        ensures few { OnErr result ((line : ℕ) → IsSteadyNet line self.old → IsSteadyNet line self.new) }
        ensures steady { IsSteadyNet telling.old.line self.new }
    {
        let Some(at) = sink_at(&self.nodes, name) else {
            return Err(NetFault::Bad(LineReason::Absent));
        };
        let node = &mut self.nodes[at].1;
        let Ok(report) = node.switch_on(alloc, reading, switch) else {
            return Err(NetFault::NoMemory);
        };
        telling.say(name, report);
        Ok(None)
    }

    // The sink of this name lists its rows.
    fn list(
        &mut self,
        telling: &mut Telling,
        reading: u64,
        name: &Name,
    ) -> Result<Option<bool>, LineReason>
        requires ready { IsReady self.old telling.old }
        requires entries { 1025 ≤ vec_capacity telling.old.entries }
        ensures comes { (model : World) → IsNetOf self.old model → ComesTo (λ bit. steps.at_sink model telling.old.line reading name.now lists) self.new telling.old telling.new result }
        ensures kept { OnErr result (self.new ≡ self.old) }
        ensures steady { IsSteadyNet telling.old.line self.new }
    {
        let Some(at) = sink_at(&self.nodes, name) else {
            return Err(LineReason::Absent);
        };
        let node = &mut self.nodes[at].1;
        node.list(reading, telling, name);
        Ok(None)
    }

    // The device of this name sends a command.
    fn press(
        &mut self,
        telling: &mut Telling,
        reading: u64,
        name: &Name,
        command: &[u8],
    ) -> Result<Option<bool>, LineReason>
        requires ready { IsReady self.old telling.old }
        requires some { 0 < length command.now }
        requires few { length command.now ≤ 104 }
        ensures comes { (model : World) → IsNetOf self.old model → ComesTo (λ bit. steps.at_device model telling.old.line reading name.now (device_presses command.now)) self.new telling.old telling.new result }
        ensures kept { OnErr result (self.new ≡ self.old) }
        ensures steady { IsSteadyNet telling.old.line self.new }
    {
        let Some(at) = device_at(&self.nodes, name) else {
            return Err(LineReason::Absent);
        };
        let node = &mut self.nodes[at].1;
        let Some(octets) = node.press(reading, command) else {
            telling.say(name, Report::End);
            return Ok(None);
        };
        telling.air(name, self.air.len() as u64, &octets);
        put_last(&mut self.air, octets);
        Ok(None)
    }

    // Octets come on the air that no node sent.
    fn inject(&mut self, telling: &mut Telling, octets: &Octets)
        requires ready { IsReady self.old telling.old }
        ensures comes { (model : World) → IsNetOf self.old model → ComesTo (λ bit. Ok (injected model telling.old.line octets.now)) self.new telling.old telling.new (Ok None) }
        ensures steady { IsSteadyNet telling.old.line self.new }
    {
        telling.inject(self.air.len() as u64, octets);
        put_last(&mut self.air, octets.copy());
    }

    /// A sink comes, under a name and an address that no node has.
    fn add_sink(
        &mut self,
        alloc: Global,
        reading: u64,
        name: &Name,
        config: Config,
    ) -> Result<(), NetFault>
        requires room { length self.old.nodes.items < vec_capacity self.old.nodes }
        ensures joins { (model : World) → IsNetOf self.old model → Joins (steps.makes_sink model reading name.now config) self.new result }
        ensures kept { OnErr result (self.new ≡ self.old) }
        ensures steady { (line : ℕ) → IsSteadyNet line self.old → IsSteadyNet line self.new }
    {
        if is_claimed(&self.nodes, name, config.address) {
            return Err(NetFault::Bad(LineReason::Taken));
        }
        if MOST <= sinks_among(&self.nodes) {
            return Err(NetFault::Bad(LineReason::Many));
        }
        let Ok(powered) = Powered::new(alloc, config) else {
            return Err(NetFault::NoMemory);
        };
        let node = Node {
            kind: Kind::Sink(powered),
            time: reading,
        };
        put_last(&mut self.nodes, (name.copy(), node));
        Ok(())
    }

    /// A device comes, under a name that no node has.
    fn add_device(&mut self, reading: u64, name: &Name, device: Device) -> Result<(), NetFault>
        requires room { length self.old.nodes.items < vec_capacity self.old.nodes }
        requires first { device.sequence ≡ 0 }
        ensures joins { (model : World) → IsNetOf self.old model → Joins (steps.makes_device model reading name.now (ideal_of device)) self.new result }
        ensures kept { OnErr result (self.new ≡ self.old) }
        ensures steady { (line : ℕ) → IsSteadyNet line self.old → IsSteadyNet line self.new }
    {
        if is_taken(&self.nodes, name) {
            return Err(NetFault::Bad(LineReason::Taken));
        }
        if MOST <= devices_among(&self.nodes) {
            return Err(NetFault::Bad(LineReason::Many));
        }
        let node = Node {
            kind: Kind::Device(device),
            time: reading,
        };
        put_last(&mut self.nodes, (name.copy(), node));
        Ok(())
    }

    /// Plays a line that makes a node, or switches one on, and any other by `happen`.
    #[tactic(auto, unfolding(gp_world::specs::Step::acted_on))]
    pub fn play(
        &mut self,
        alloc: Global,
        telling: &mut Telling,
        reading: u64,
        action: &Action,
    ) -> Result<Option<bool>, NetFault>
        requires ready { IsReady self.old telling.old }
        requires action { IsAction action.now }
        requires entries { NeedsRoom action.now (vec_capacity telling.old.entries) }
        ensures comes { (model : World) → IsNetOf self.old model → ComesOf (λ bit. steps.acted_on model telling.old.line reading bit action.now) self.new telling.old telling.new result }
        ensures left { IfErr result (λ fault. IsLeft action.now fault self.old self.new) }
        ensures few { OnErr result ((line : ℕ) → IsSteadyNet line self.old → IsSteadyNet line self.new) }
        ensures steady { IsSteadyNet telling.old.line self.new }
    {
        match action {
            Action::Sink {
                name,
                address,
                ieee,
                mode,
                channel,
                link,
                shared,
            } => {
                let config = config_of(*address, *ieee, *mode, *channel, link, shared);
                self.add_sink(alloc, reading, name, config)?;
                Ok(None)
            }
            Action::Device {
                name,
                source,
                key,
                kind,
                level,
                device,
                counter,
            } => {
                let device = Device::new(*source, *key, *kind, *level, *device, *counter);
                self.add_device(reading, name, device)?;
                Ok(None)
            }
            Action::On { sink } => self.switch_on(alloc, telling, reading, sink, Switch::On),
            Action::OnCut { sink, calls, way } => {
                let switch = Switch::Flicker {
                    calls: *calls,
                    way: *way,
                };
                self.switch_on(alloc, telling, reading, sink, switch)
            }
            other => match self.happen(telling, reading, other) {
                Ok(bit) => Ok(bit),
                Err(reason) => Err(NetFault::Bad(reason)),
            },
        }
    }

    // Plays a line that makes no node and switches none on.
    #[tactic(auto, unfolding(gp_world::specs::Step::acted_on))]
    fn happen(
        &mut self,
        telling: &mut Telling,
        reading: u64,
        action: &Action,
    ) -> Result<Option<bool>, LineReason>
        requires ready { IsReady self.old telling.old }
        requires action { IsAction action.now }
        requires kind { MakesNoNode action.now }
        requires entries { NeedsRoom action.now (vec_capacity telling.old.entries) }
        ensures comes { (model : World) → IsNetOf self.old model → ComesTo (λ bit. steps.acted_on model telling.old.line reading bit action.now) self.new telling.old telling.new result }
        ensures kept { OnErr result (self.new ≡ self.old) }
        ensures steady { IsSteadyNet telling.old.line self.new }
    {
        match action {
            Action::Inject { frame } => {
                self.inject(telling, frame);
                Ok(None)
            }
            Action::Press { device, command } => {
                self.press(telling, reading, device, command.as_slice())
            }
            Action::Hear {
                frame,
                node,
                link: _,
            } => self.hear(telling, reading, *frame, node),
            Action::Table { sink } => self.list(telling, reading, sink),
            other => self.at_sink(telling, reading, other),
        }
    }

    // Plays a line that asks something of a sink.
    #[tactic(auto, unfolding(gp_world::specs::Step::acted_on, gp_world::specs::Step::reaches))]
    fn at_sink(
        &mut self,
        telling: &mut Telling,
        reading: u64,
        action: &Action,
    ) -> Result<Option<bool>, LineReason>
        requires ready { IsReady self.old telling.old }
        requires action { IsAction action.now }
        requires kind { IsAtSink action.now }
        ensures comes { (model : World) → IsNetOf self.old model → ComesTo (λ bit. steps.acted_on model telling.old.line reading bit action.now) self.new telling.old telling.new result }
        ensures kept { OnErr result (self.new ≡ self.old) }
        ensures steady { IsSteadyNet telling.old.line self.new }
    {
        match action {
            Action::Pair {
                sink,
                source,
                key,
                kind,
                level,
                device,
                counter,
            } => {
                let offer = offer_of(*source, *key, *kind, *level, *device, *counter);
                self.ask(telling, reading, sink, Request::Pair(offer))
            }
            Action::Rule {
                sink,
                source,
                command,
                endpoint,
                form,
            } => {
                let rule = rule_of(*source, *command, *endpoint, form);
                self.ask(telling, reading, sink, Request::Rule(rule))
            }
            Action::Announce { sink, source } => {
                self.ask(telling, reading, sink, Request::Announce(*source))
            }
            Action::Cut {
                sink,
                commit,
                calls,
                way,
            } => {
                let request = Request::Cut {
                    commit: *commit,
                    calls: *calls,
                    way: *way,
                };
                self.ask(telling, reading, sink, request)
            }
            Action::Fault {
                sink,
                commit,
                calls,
            } => {
                let request = Request::Fault {
                    commit: *commit,
                    calls: *calls,
                };
                self.ask(telling, reading, sink, request)
            }
            Action::Off { sink } => self.ask(telling, reading, sink, Request::Off),
            _ => unreachable!(),
        }
    }
}
