//! Whether the open slots of a row break a rule, by what was read before.
ghost use Rattle.std.specs.Prelude.{◌≡◌, ◌↔◌, ◌<◌, true, false, length, IsTrue, MatchOption, Some, None};
ghost use Rattle.gp_store.specs.Slot.{Shows};
ghost use Rattle.gp_store.specs.Reading.{IsOther, IsNewAmong, IsJudged};

use crate::codec::formed;
use gp_rows::{Row, Table};

// The row has another key and another order than this one, or another SrcID, and so has its older slot.
fn is_other(row: &Row, before: u64, new: &Row) -> bool
    ensures { IsTrue result ↔ IsOther row.now before new.now.src.0 new.now.key.0 new.now.order }
{
    row.src.0 != new.src.0
        || (row.key.0 != new.key.0 && row.order != new.order && before != new.order)
}

// No row found so far has this row's SrcID and key, or its SrcID and order.
fn is_new(table: &Table, older: &[u64], row: &Row) -> bool
    requires { length older.now ≡ length table.now }
    ensures { IsTrue result ↔ IsNewAmong table.now older.now row.now.src.0 row.now.key.0 row.now.order }
{
    for at in 0..table.count() {
        if !is_other(table.row(at), older[at as usize], row) {
            return false;
        }
    }
    true
}

/// The values of an open slot of row `at`, where it breaks no rule but those on the row's other slot.
pub fn judge(table: &Table, older: &[u64], at: u16, octets: &[u8]) -> Option<Row>
    requires older { length older.now ≡ length table.now }
    requires size { length octets.now ≡ 63 }
    ensures { MatchOption result (IsJudged table.now older.now at octets.now → ⊥) (λ row. IsJudged table.now older.now at octets.now × Shows octets.now 0 row) }
{
    let row = formed(octets)?;
    if table.count() != at {
        return None;
    }
    if !is_new(table, older, &row) {
        return None;
    }
    Some(row)
}
