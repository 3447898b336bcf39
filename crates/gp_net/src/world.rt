//! A world: a network, line by line.
ghost use Rattle.std.specs.Prelude.{◌≡◌, ◌<◌, ◌≤◌, ℕ, IfErr, OnErr, OnOk, vec_capacity};
ghost use Rattle.gp_world.specs.Run.{IsAsked};
ghost use Rattle.gp_world.specs.Step.{step};
ghost use Rattle.gp_world.specs.World.{World as IdealWorld, empty};
ghost use Rattle.gp_net.specs.Inside.{ComesOf, IsEvent, IsLeftAt, IsReady, NeedsRoomFor};
ghost use Rattle.gp_net.specs.Steady.{IsSteadyNet, steady_prop};
ghost use Rattle.gp_net.specs.Net.{IsNetOf};

use crate::fault::NetFault;
use crate::net::Net;
use gp_base::place::put_last;
use gp_script::{Action, Event};
use gp_telling::{Lines, Telling};
use std::alloc::Global;

/// Room for the entries of a line that lists rows, and of any other.
const ROWS_ROOM: usize = 1_025;

const ROOM: usize = 6;

// How many entries an event may have.
fn room_for(event: &Event) -> usize
    ensures some { 6 ≤ result }
    ensures rows { NeedsRoomFor event.now result }
{
    match event {
        Event::Line {
            action: Action::Table { .. },
            ..
        } => ROWS_ROOM,
        _ => ROOM,
    }
}

// Plays an event, with room for what it makes and tells.
fn played(
    net: &mut Net,
    alloc: Global,
    telling: &mut Telling,
    event: &Event,
) -> Result<Option<bool>, NetFault>
    requires ready { IsReady net.old telling.old }
    requires event { IsEvent event.now }
    requires entries { NeedsRoomFor event.now (vec_capacity telling.old.entries) }
    ensures comes { (model : IdealWorld) → IsNetOf net.old model → ComesOf (λ bit. step model telling.old.line event.now bit) net.new telling.old telling.new result }
    ensures left { IfErr result (λ fault. IsLeftAt event.now fault net.old net.new) }
    ensures few { OnErr result ((line : ℕ) → IsSteadyNet line net.old → IsSteadyNet line net.new) }
    ensures steady { IsSteadyNet telling.old.line net.new }
{
    match event {
        Event::Nothing => Ok(None),
        Event::Line { reading, action } => net.play(alloc, telling, *reading, action),
    }
}

/// The network that a script plays: the frames on the air, the messages and the nodes. It is empty at first, and each line of
/// the script is one step.
#[derive(Drop)]
pub struct World {
    line: u64,
    net: Net,
    bits: Vec<bool>,
    ghost steady: { IsSteadyNet line net } by { steady_prop line net },
}

impl World {
    ghost use Rattle.std.specs.Prelude.{[]};
    ghost use Rattle.gp_net.specs.World.{Goes, IsKept, Stands, bits_of, line_of};

    /// An empty world.
    #[tactic(auto, unfolding(gp_world::specs::World::empty))]
    pub fn new(alloc: Global) -> World
        ensures line { line_of result ≡ 0 }
        ensures stands { Stands result empty }
        ensures bits { bits_of result ≡ [] }
    {
        World {
            line: 0,
            net: Net {
                air: Vec::new(alloc),
                sent: 0,
                nodes: Vec::new(alloc),
            },
            bits: Vec::new(alloc),
        }
    }

    /// The bits that the lines took, in their order: one for each change of a sink whose commit was broken off, or was open when its power
    /// went. It is yes where the sink remembers the change.
    pub fn bits(&self) -> &[bool]
        ensures { result.now ≡ bits_of self.now }
    {
        self.bits.as_slice()
    }

    /// Plays the line of this number, which is above that of the last line that was played and at most 1,000,000,000, and gives
    /// what is reported. The event is what some line of a script asks for.
    ///
    /// `Bad` has the first reason that holds: Taken, where a new node's name, or a sink's address, is another node's; Many,
    /// where there are 64 nodes of its kind; Absent, where there is no node of the name and kind; Missing, where there is no
    /// frame of the number. After a fault the world is as it was; but where memory wasn't found to switch a sink on, another cut or fault
    /// may be armed at it.
    pub fn step(&mut self, alloc: Global, line: u64, event: &Event) -> Result<Lines, NetFault>
        requires follows { line_of self.old < line }
        requires within { line ≤ 1000000000 }
        requires event { IsAsked event.now }
        ensures goes { (model : IdealWorld) → Stands self.old model → Goes model line event.now self.old self.new result }
        ensures line { OnOk result (line_of self.new ≡ line) }
        ensures kept { IfErr result (λ fault. IsKept event.now fault self.old self.new) }
    {
        let Ok(mut telling) = Telling::new(alloc, line, room_for(event)) else {
            return Err(NetFault::NoMemory);
        };
        let Ok(()) = self.bits.reserve(1) else {
            return Err(NetFault::NoMemory);
        };
        let Ok(()) = self.net.make_room() else {
            return Err(NetFault::NoMemory);
        };
        match played(&mut self.net, alloc, &mut telling, event) {
            Ok(bit) => {
                self.line = line;
                if let Some(bit) = bit {
                    put_last(&mut self.bits, bit);
                }
                Ok(telling.into_lines())
            }
            Err(fault) => Err(fault),
        }
    }
}
