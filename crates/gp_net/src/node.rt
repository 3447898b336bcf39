//! The nodes of a network.
ghost use Rattle.std.specs.Prelude.{◌≡◌, ◌<◌, ◌≤◌, ◌+◌, ◌-◌, ◌^◌, ℕ, [], max, length, vec_capacity, true, false, IfOk, OnOk, OnErr};
ghost use Rattle.gp_world.specs.Devices.{device_presses};
ghost use Rattle.gp_world.specs.World as ideal;
ghost use Rattle.gp_world.specs.Step.{node_hears};
ghost use Rattle.gp_net.specs.Made.{MakesBy, ListsAtSink, MakesAtSink, MakesAtDevice, SwitchesSink, MayRearmKind, says_pressed, airs_pressed};
ghost use Rattle.gp_net.specs.Inside.{is_kind_at, is_sink_kind};
ghost use Rattle.gp_net.specs.Replies.{asked, says, puts, switched, IsReply, IsRequest, IsSwitch};
ghost use Rattle.gp_net.specs.Steady.{IsFewKind};
ghost use Rattle.gp_net.specs.Nodes.{IsKindOf};

use crate::device::Device;
use crate::reply::{Reply, Request, Switch, replied, reply_to};
use gp_base::{NoMemory, Octets};
use gp_power::Powered;
use gp_script::{Name, Report};
use gp_telling::Telling;
use std::alloc::Global;

/// What a node is.
#[derive(Drop)]
pub enum Kind {
    /// A sink, with its power.
    Sink(Powered),
    /// A device.
    Device(Device),
}

/// A node: what it is, and the greatest reading of the clock that it has had.
#[derive(Drop)]
pub struct Node {
    pub kind: Kind,
    pub time: u64,
}

impl Kind {
    /// Whether it is a sink.
    pub fn is_sink(&self) -> bool
        ensures { result ≡ is_sink_kind self.now }
    {
        match self {
            Kind::Sink(_) => true,
            Kind::Device(_) => false,
        }
    }

    /// Whether it is a node of this address.
    pub fn has_address(&self, address: u16) -> bool
        ensures { result ≡ is_kind_at address self.now }
    {
        match self {
            Kind::Sink(powered) => powered.config().address == address,
            Kind::Device(_) => false,
        }
    }
}

impl Node {
    /// Octets reach the node. A device closes them out, since it doesn't listen.
    pub fn hear(&mut self, reading: u64, octets: &[u8]) -> (Reply, Option<bool>)
        requires room { IsFewKind (2 ^ 64 - 2) self.old.kind }
        ensures made { (model : ideal.Kind) → IsKindOf self.old.kind model → MakesBy (λ bit. node_hears octets.now bit model) self.new.kind (says result.0) (puts result.0) [] result.1 }
        ensures time { self.new.time ≡ max self.old.time reading }
        ensures few { (most : ℕ) → IsFewKind most self.old.kind → IsFewKind (most + 2) self.new.kind }
        ensures reply { IsReply result.0 }
    {
        self.time = self.time.max(reading);
        match &mut self.kind {
            Kind::Sink(powered) => {
                let (answer, bit) = powered.hear(octets);
                (replied(answer), bit)
            }
            Kind::Device(_) => (Reply::Report(Report::Closed), None),
        }
    }

    /// A line asks something of a sink.
    pub fn ask(&mut self, reading: u64, request: Request) -> (Reply, Option<bool>)
        requires sink { is_sink_kind self.old.kind ≡ true }
        requires request { IsRequest request }
        requires room { IsFewKind (2 ^ 64 - 2) self.old.kind }
        ensures made { MakesAtSink (asked request) self.old.kind self.new.kind (says result.0) (puts result.0) result.1 }
        ensures time { self.new.time ≡ max self.old.time reading }
        ensures few { (most : ℕ) → IsFewKind most self.old.kind → IsFewKind (most + 2) self.new.kind }
        ensures reply { IsReply result.0 }
    {
        match &mut self.kind {
            Kind::Sink(powered) => {
                self.time = self.time.max(reading);
                reply_to(powered, request)
            }
            Kind::Device(_) => unreachable!(),
        }
    }

    /// A sink is switched on. Where memory isn't found, another cut or fault may be armed at it.
    pub fn switch_on(
        &mut self,
        alloc: Global,
        reading: u64,
        switch: Switch,
    ) -> Result<Report, NoMemory>
        requires sink { is_sink_kind self.old.kind ≡ true }
        requires switch { IsSwitch switch }
        ensures made { IfOk result (λ report. SwitchesSink (switched switch) self.old.kind self.new.kind report) }
        ensures left { OnErr result (MayRearmKind self.old.kind self.new.kind) }
        ensures time { OnOk result (self.new.time ≡ max self.old.time reading) }
        ensures same_time { OnErr result (self.new.time ≡ self.old.time) }
        ensures few { (most : ℕ) → IsFewKind most self.old.kind → IsFewKind most self.new.kind }
    {
        match &mut self.kind {
            Kind::Sink(powered) => {
                let report = match switch {
                    Switch::On => powered.switch_on(alloc)?,
                    Switch::Flicker { calls, way } => powered.flicker(alloc, calls, way)?,
                };
                self.time = self.time.max(reading);
                Ok(report)
            }
            Kind::Device(_) => unreachable!(),
        }
    }

    /// A sink lists its rows, or tells that it is dark.
    pub fn list(&mut self, reading: u64, telling: &mut Telling, name: &Name)
        requires sink { is_sink_kind self.old.kind ≡ true }
        requires untold { telling.old.entries.items ≡ [] }
        requires entries { 1025 ≤ vec_capacity telling.old.entries }
        ensures made { (model : ideal.Kind) → IsKindOf self.old.kind model → ListsAtSink name.now telling.old telling.new self.new.kind model }
        ensures time { self.new.time ≡ max self.old.time reading }
        ensures few { (most : ℕ) → IsFewKind most self.old.kind → IsFewKind most self.new.kind }
    {
        match &self.kind {
            Kind::Sink(powered) => {
                match powered.rows() {
                    Some(table) => telling.list(name, table),
                    None => telling.say(name, Report::Dark),
                }
                self.time = self.time.max(reading);
            }
            Kind::Device(_) => unreachable!(),
        }
    }

    /// A device sends a command: the octets of the frame, and none where no counter is left.
    pub fn press(&mut self, reading: u64, command: &[u8]) -> Option<Octets>
        requires device { is_sink_kind self.old.kind ≡ false }
        requires some { 0 < length command.now }
        requires room { length command.now ≤ 104 }
        ensures made { MakesAtDevice says_pressed airs_pressed (device_presses command.now) self.old.kind self.new.kind result }
        ensures time { self.new.time ≡ max self.old.time reading }
        ensures few { (most : ℕ) → IsFewKind most self.new.kind }
    {
        match &mut self.kind {
            Kind::Sink(_) => unreachable!(),
            Kind::Device(device) => {
                self.time = self.time.max(reading);
                device.press(command)
            }
        }
    }
}
