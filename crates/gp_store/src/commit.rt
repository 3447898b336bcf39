//! The commit of one row's values.
ghost use Rattle.std.specs.Prelude.{◌≡◌, ◌+◌, ◌<◌, ◌≤◌, false, true, length, OnOk, OnErr, is_ok, is_some};
ghost use Rattle.std.specs.Bool.{OnTrue, OnFalse};
ghost use Rattle.gp_base.specs.Outside.{one_more};
ghost use Rattle.gp_disk.specs.Disk.{IsQuiet};
ghost use Rattle.gp_rows.specs.Rows.{CAPACITY};
ghost use Rattle.gp_store.specs.Image.{format_1};
ghost use Rattle.gp_store.specs.Writes.{Rewritten, Becomes, IsWritable, LeavesRewritten, Writes, marks_after};
ghost use Rattle.gp_store.specs.Commit.{HasReason, HasCause, WritesOnce, Burns, is_made, next_generation};

use crate::codec::spell;
use crate::fault::CommitFault;
use crate::layout::Slot;
use crate::writing::write_slot;
use gp_base::Failed;
use gp_disk::Disk;
use gp_rows::Row;

/// What a store knows beside its rows.
#[derive(Clone, Copy, Debug)]
pub struct Marks {
    /// The last generation.
    pub last: u64,
    /// An earlier commit answered Worn or DiskFault.
    pub halted: bool,
    /// The row of the commit that answered DiskFault, with the values that its change gives it.
    pub undecided: Option<(u16, Row)>,
}

/// The slot of a row that the next commit writes: the one that isn't the row's newest.
#[derive(Clone, Copy, Debug)]
pub struct Stale {
    /// It is the one of the odd number.
    pub odd: bool,
    /// It is open.
    pub is_open: bool,
}

// Rewrites one slot in a run of calls of its own.
fn rewrite<D: Disk>(disk: &mut D, slot: Slot, is_open: bool, octets: &[u8]) -> Result<(), Failed>
    requires row { slot.row < CAPACITY }
    requires octets { length octets.now ≡ 63 }
    requires writable { IsWritable (D.tally disk.old) (D.image disk.old) (D.may_leave disk.old) slot.row slot.odd is_open }
    ensures moments { LeavesRewritten slot.row slot.odd octets.now (D.image disk.old) (D.left disk.new) }
    ensures written { OnOk result (Becomes (Rewritten format_1 slot.row slot.odd octets.now) (D.image disk.old) (D.image disk.new)) }
    ensures quiet { OnOk result (IsQuiet (D.tally disk.new) (D.image disk.new) (D.may_leave disk.new)) }
    ensures run { WritesOnce (D.tally disk.old) (D.tally disk.new) (is_ok result) }
    ensures good { OnOk result (D.faults disk.new ≡ D.faults disk.old) }
    ensures failed { OnErr result (D.faults disk.new ≡ one_more (D.faults disk.old)) }
    ensures fuse { Burns (D.fuse disk.old) (D.fuse disk.new) (is_ok result) }
    ensures told { is_some (D.image disk.new) ≡ is_some (D.image disk.old) }
{
    disk.begin();
    write_slot(disk, slot, is_open, octets)
}

/// Commits a row's values into its stale slot, under the next generation.
pub fn write_row<D: Disk>(
    disk: &mut D,
    marks: &mut Marks,
    stale: Stale,
    at: u16,
    row: &Row,
) -> Result<(), CommitFault>
    requires row { at < CAPACITY }
    requires writable { marks.old.halted ≡ false → IsWritable (D.tally disk.old) (D.image disk.old) (D.may_leave disk.old) at stale.odd stale.is_open }
    ensures reason { HasReason result marks.old.halted ⊥ marks.old.last }
    ensures writes { OnTrue (is_made result) (Writes at stale.odd row.now (next_generation marks.old.last) (D.image disk.old) (D.image disk.new) (D.left disk.new) (is_ok result)) }
    ensures quiet { OnOk result (IsQuiet (D.tally disk.new) (D.image disk.new) (D.may_leave disk.new)) }
    ensures run { OnTrue (is_made result) (WritesOnce (D.tally disk.old) (D.tally disk.new) (is_ok result)) }
    ensures cause { HasCause result (D.faults disk.old) (D.faults disk.new) }
    ensures fuse { OnTrue (is_made result) (Burns (D.fuse disk.old) (D.fuse disk.new) (is_ok result)) }
    ensures told { is_some (D.image disk.new) ≡ is_some (D.image disk.old) }
    ensures marks { marks.new ≡ marks_after result marks.old at row.now }
    ensures untouched { OnFalse (is_made result) (disk.new ≡ disk.old) }
{
    if marks.halted {
        return Err(CommitFault::Halted);
    }
    if marks.last == u64::MAX {
        marks.halted = true;
        return Err(CommitFault::Worn {
            generation: marks.last,
        });
    }
    let slot = Slot {
        row: at,
        odd: stale.odd,
    };
    let octets = spell(row, marks.last + 1);
    match rewrite(disk, slot, stale.is_open, &octets) {
        Ok(()) => {
            marks.last += 1;
            Ok(())
        }
        Err(Failed) => {
            marks.halted = true;
            marks.undecided = Some((at, *row));
            Err(CommitFault::DiskFault)
        }
    }
}
