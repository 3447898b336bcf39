//! A whole script.

ghost use Rattle.gp_lines.specs.Leaves.{Counts, Leaves};
ghost use Rattle.gp_net.specs.World.{Stands, bits_of};
ghost use Rattle.gp_simulation.specs.Playing.{Completes, Plays, StopsAt};

use crate::simulation::Simulation;
use gp_base::{Out, Source};
use gp_lines::{Status, run_lines};
use gp_net::World;
use std::alloc::Global;

/// Plays the lines of a script from an empty world, and writes what is reported of each before the next is played. It answers how that
/// ended, and gives the world.
///
/// It is Done where the script was read to its end. `BadLine` has the first line that is refused and why: Form where it has no
/// form of a script, and else the reason of the step of the world. Lines end with LF, before which a CR is dropped; there are at
/// most 1,000,000 of at most 1,024 octets, and at the first line beyond that it is TooLong. Whatever the status, what is written is
/// the report of the lines that were played, or after WriteFault and NoMemory a front of it; after WriteFault no more of it is
/// missing than what the last line reported. After NoMemory nothing is said of the world.
pub fn simulate<S: Source, O: Out>(alloc: Global, source: &mut S, out: &mut O) -> (Status, World)
    ensures leaves { Leaves (Plays Stands bits_of) (StopsAt Stands bits_of) 0 result.1 result.0 (S.left source.old) (S.left source.new) (O.written out.old) (O.written out.new) }
    ensures counts { Counts result.0 (S.faults source.old) (S.faults source.new) (O.faults out.old) (O.faults out.new) }
    ensures completes { Completes result.0 (S.left source.old) (S.faults source.old) (S.faults source.new) (O.faults out.old) (O.faults out.new) }
{
    play_lines(alloc, source, out)
}

// The same, but for what it completes.
fn play_lines<S: Source, O: Out>(alloc: Global, source: &mut S, out: &mut O) -> (Status, World)
    ensures leaves { Leaves (Plays Stands bits_of) (StopsAt Stands bits_of) 0 result.1 result.0 (S.left source.old) (S.left source.new) (O.written out.old) (O.written out.new) }
    ensures counts { Counts result.0 (S.faults source.old) (S.faults source.new) (O.faults out.old) (O.faults out.new) }
{
    let mut simulation = Simulation {
        alloc,
        world: World::new(alloc),
    };
    let status = run_lines(alloc, &mut simulation, 0, source, out);
    let Simulation { alloc: _, world } = simulation;
    (status, world)
}
