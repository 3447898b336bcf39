//! A whole life.

ghost use Rattle.std.specs.Prelude.{◌≡◌};
ghost use Rattle.gp_lines.specs.Leaves.{Counts, Leaves};
ghost use Rattle.gp_life.specs.Living.{Lives, StopsAt};
ghost use Rattle.gp_life.specs.Ending.{Completes, DiskCounts, Remembers};
ghost use Rattle.gp_store.specs.Recovery.{Told};
ghost use Rattle.gp_life.specs.Stages.{IsThere, disk_in};

use crate::stage::{Living, Stage};
use gp_base::{Out, Source};
use gp_disk::Disk;
use gp_lines::{Status, run_lines};
use std::alloc::Global;

/// Runs one sink over a disk for one life: reads its lines from the source, and writes what it reports of each before the next is
/// judged. It answers how that ended, and hands the disk back.
///
/// The first line that is neither empty nor a comment sets the sink up: it is started over the rows of the disk, and before it the
/// disk is untouched. `BadLine` has Form where a line has no form of a life, where another line stands in the place of that one, or
/// where the sink is set up again. `DiskRefused` is the refusal of the store; `Worn` comes where a change is due and the last
/// generation is the greatest number; `DiskFault` only where the disk's count rose.
pub fn live<S: Source, O: Out, D: Disk>(
    alloc: Global,
    source: &mut S,
    out: &mut O,
    disk: D,
) -> (Status, D)
    ensures leaves { Leaves (Lives D.Disk disk) (StopsAt D.Disk disk) 0 result.1 result.0 (S.left source.old) (S.left source.new) (O.written out.old) (O.written out.new) }
    ensures counts { Counts result.0 (S.faults source.old) (S.faults source.new) (O.faults out.old) (O.faults out.new) }
    ensures disk_counts { DiskCounts result.0 (D.faults disk) (D.faults result.1) }
    ensures lives { Told (D.image disk) (Remembers D.Disk disk (S.left source.old) (S.left source.new) (O.written out.old) (O.written out.new) result.1) }
    ensures completes { Completes D.Disk disk result.0 (S.left source.old) (S.faults source.old) (S.faults source.new) (O.faults out.old) (O.faults out.new) result.1 }
{
    run_life(alloc, source, out, disk)
}

// The same, but for what follows of that.
fn run_life<S: Source, O: Out, D: Disk>(
    alloc: Global,
    source: &mut S,
    out: &mut O,
    disk: D,
) -> (Status, D)
    ensures leaves { Leaves (Lives D.Disk disk) (StopsAt D.Disk disk) 0 result.1 result.0 (S.left source.old) (S.left source.new) (O.written out.old) (O.written out.new) }
    ensures counts { Counts result.0 (S.faults source.old) (S.faults source.new) (O.faults out.old) (O.faults out.new) }
{
    let mut living = Living {
        alloc,
        stage: Stage::Waiting(disk),
    };
    let status = run_lines(alloc, &mut living, 0, source, out);
    let Living { alloc: _, stage } = living;
    (status, disk_of(stage))
}

// The disk of a life.
fn disk_of<D: Disk>(stage: Stage<D>) -> D
    requires { IsThere stage }
    ensures { (other : D) → result ≡ disk_in other stage }
{
    match stage {
        Stage::Waiting(disk) => disk,
        Stage::Awake(awake) => awake.into_disk(),
        Stage::Moved => unreachable!(),
    }
}
