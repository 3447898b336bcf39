//! A change of the ledger is stored by one commit.
ghost use Rattle.std.specs.Prelude.{◌≡◌};
ghost use Rattle.gp_store.specs.Commit.{Commits};
ghost use Rattle.gp_sink.specs.Ruled.{MayMake};
ghost use Rattle.gp_sink.specs.Stored as words;
ghost use Rattle.gp_sink.specs.Stored.{stored};

use gp_disk::Disk;
use gp_ideal::{Change, Values};
use gp_rows::Row;
use gp_store::{CommitFault, Store};

// The row of a pairing, before it has an order.
fn row_with(values: Values, counter: u32) -> Row
    ensures { result ≡ words.row_with values counter }
{
    Row {
        src: values.src,
        key: values.key,
        kind: values.kind,
        level: values.level,
        mode: values.mode,
        group: values.group,
        device: values.device,
        order: 0,
        live: true,
        floor: counter,
    }
}

/// Makes one commit of a change.
pub fn commit<D: Disk>(store: &mut Store<D>, change: Change) -> Result<(), CommitFault>
    requires { MayMake store.old.rows change }
    ensures { Commits D.Disk (stored store.old.last change) store.old store.new result }
{
    match change {
        Change::Pair { values, counter } => match store.commit_row(row_with(values, counter)) {
            Ok(_) => Ok(()),
            Err(fault) => Err(fault),
        },
        Change::Accept { row, counter } => store.commit_floor(row, counter),
        Change::Retire { row, counter } => store.retire(row, counter),
    }
}
