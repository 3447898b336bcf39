//! A life as a work that takes its lines.

ghost use Rattle.std.specs.Prelude.{◌≡◌, ◌+◌, ◌≤◌, OnOk};
ghost use Rattle.gp_life.specs.Stages.{Acts, Awaits, Begins, IsMoved, IsWaiting, WakesAt, halt_by};

use crate::awake::Awake;
use gp_disk::Disk;
use gp_lines::{DiskReason, Halt, Work};
use gp_script::{LineReason, SinkAction, SinkEvent, read_sink_event};
use gp_sink::{Config, Sink};
use gp_store::{Refused, StoreFault};
use gp_telling::config_of;
use std::alloc::Global;
use std::mem;

/// How far a life has come.
pub enum Stage<D: Disk> {
    /// The sink isn't set up.
    Waiting(D),
    /// The sink is set up.
    Awake(Awake<D>),
    /// The disk was moved.
    Moved,
}

/// A life of one sink.
pub struct Living<D: Disk> {
    /// Where memory comes from.
    pub alloc: Global,
    /// How far it has come.
    pub stage: Stage<D>,
}

impl<D: Disk> Work for Living<D> {
    ghost use Rattle.gp_life.specs.Stages.{Awaits, Goes, Stops};

    ghost goes = { λ old number line text new. Goes D.Disk old.stage number line text new.stage };

    ghost awaits = { λ work number. Awaits work.stage number };

    ghost stops = { λ old number line halt new. Stops D.Disk old.stage number line halt new.stage };

    fn take(&mut self, number: u64, line: &[u8], text: &mut Vec<u8>) -> Result<(), Halt> {
        let Ok(event) = read_sink_event(line) else {
            return Err(Halt::Bad(LineReason::Form));
        };
        match event {
            SinkEvent::Nothing => Ok(()),
            SinkEvent::Line { reading: _, action } => {
                self.stage.act(self.alloc, number, &action, text)
            }
        }
    }
}

impl<D: Disk> Stage<D> {
    // Plays an action, which sets the sink up or reaches it.
    fn act(
        &mut self,
        alloc: Global,
        number: u64,
        action: &SinkAction,
        text: &mut Vec<u8>,
    ) -> Result<(), Halt>
        requires awaits { Awaits self.old number }
        requires few { number ≤ 1000000 }
        ensures acts { Acts D.Disk self.old number action.now text.old.items text.new.items self.new result }
        ensures next { OnOk result (Awaits self.new (number + 1)) }
    {
        match self {
            Stage::Awake(awake) => awake.play(alloc, number, action, text),
            other => other.wake(alloc, action),
        }
    }

    // Sets the sink up.
    fn wake(&mut self, alloc: Global, action: &SinkAction) -> Result<(), Halt>
        requires { IsWaiting self.old }
        ensures { WakesAt D.Disk self.old action.now self.new result }
    {
        let SinkAction::Config {
            address,
            ieee,
            mode,
            channel,
            link,
            shared,
        } = action
        else {
            return Err(Halt::Bad(LineReason::Form));
        };
        let config = config_of(*address, *ieee, *mode, *channel, link, shared);
        match mem::replace(self, Stage::Moved) {
            Stage::Waiting(disk) => {
                let (stage, result) = begun(alloc, config, disk);
                self.put(stage);
                result
            }
            _ => unreachable!(),
        }
    }

    // Puts a stage where it was moved away.
    fn put(&mut self, stage: Stage<D>)
        requires { IsMoved self.old }
        ensures { self.new ≡ stage }
    {
        match mem::replace(self, stage) {
            Stage::Moved => {}
            _ => unreachable!(),
        }
    }
}

// Starts a sink over the rows of a disk.
fn begun<D: Disk>(alloc: Global, config: Config, disk: D) -> (Stage<D>, Result<(), Halt>)
    ensures { Begins D.Disk config disk result.0 result.1 }
{
    match Sink::start(alloc, config, disk) {
        Ok(sink) => (Stage::Awake(Awake { sink, sent: 0 }), Ok(())),
        Err(refused) => {
            let Refused { fault, disk } = refused;
            (Stage::Waiting(disk), Err(halt_of(fault)))
        }
    }
}

// Why a disk that is refused ends a life.
fn halt_of(fault: StoreFault) -> Halt
    ensures { result ≡ halt_by fault }
{
    match fault {
        StoreFault::DiskFault => Halt::DiskFault,
        StoreFault::DiskShort => Halt::DiskRefused(DiskReason::DiskShort),
        StoreFault::NotFormatted => Halt::DiskRefused(DiskReason::NotFormatted),
        StoreFault::AlreadyFormatted => Halt::DiskRefused(DiskReason::AlreadyFormatted),
        StoreFault::SlotForm { slot } => Halt::DiskRefused(DiskReason::SlotForm { slot }),
        StoreFault::NoMemory => Halt::NoMemory,
    }
}
