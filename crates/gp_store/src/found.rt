//! What a reading of the slots has found so far.
ghost use Rattle.std.specs.Prelude.{◌≤◌, vec_capacity};
ghost use Rattle.gp_rows.specs.Rows.{CAPACITY};

use crate::commit::Stale;
use gp_rows::Table;

/// The rows found so far, and what is known of their slots.
#[derive(Debug, Drop)]
pub struct Found {
    /// The rows.
    pub table: Table,
    /// The stale slot of each row.
    pub stale: Vec<Stale>,
    /// The order in the stale slot of each row, 0 where that is closed.
    pub older: Vec<u64>,
    /// The greatest generation.
    pub last: u64,
    ghost room: { CAPACITY ≤ vec_capacity stale },
    ghost room_older: { CAPACITY ≤ vec_capacity older },
}
