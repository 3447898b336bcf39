//! The playing of a script as a work that takes its lines.

use gp_lines::{Halt, Work};
use gp_net::{NetFault, World};
use gp_script::{LineReason, read_event};
use gp_telling::put_report;
use std::alloc::Global;

/// A world on which a script is played.
#[derive(Drop)]
pub struct Simulation {
    /// Where memory comes from.
    pub alloc: Global,
    /// The world.
    pub world: World,
}

impl Work for Simulation {
    ghost use Rattle.std.specs.Prelude.{◌<◌};
    ghost use Rattle.gp_net.specs.World.{Stands, bits_of, line_of};
    ghost use Rattle.gp_simulation.specs.Simulation.{Goes, Stops};

    ghost goes = { λ old number line text new. Goes Stands bits_of old.world number line text new.world };

    ghost awaits = { λ work number. line_of work.world < number };

    ghost stops = { λ old number line halt new. Stops Stands bits_of old.world number line halt new.world };

    fn take(&mut self, number: u64, line: &[u8], text: &mut Vec<u8>) -> Result<(), Halt> {
        let Ok(event) = read_event(line) else {
            return Err(Halt::Bad(LineReason::Form));
        };
        let told = match self.world.step(self.alloc, number, &event) {
            Ok(told) => told,
            Err(NetFault::Bad(reason)) => return Err(Halt::Bad(reason)),
            Err(NetFault::NoMemory) => return Err(Halt::NoMemory),
        };
        match put_report(self.alloc, told.as_slice(), text) {
            Ok(()) => Ok(()),
            Err(_) => Err(Halt::NoMemory),
        }
    }
}
