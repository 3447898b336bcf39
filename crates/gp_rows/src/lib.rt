//! The pairings of one sink, as a list of rows. Row n is the n-th pair of SrcID and key that was first paired; rows are
//! added at the end and never removed. `Table` keeps that no two rows have one pair of SrcID and key, and no two rows of
//! one SrcID one order (`IsTable`), so each SrcID has at most one current row (`IsCurrent`). What a pairing, an accepted
//! counter and one that unpairs make of the rows is a `Change` that is `applied`.
#![tactic(auto)]

mod index;
mod row;
mod table;

pub use row::Row;
pub use table::{ROWS, Table, TableFull};
