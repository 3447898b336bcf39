//! Pairings that are looked up.

use crate::store::filled;
use anyhow::{Context, Result, ensure};
use gp_base::Src;
use gp_rows::Table;

// The row of a SrcID, by a look at each row from the first on.
fn scanned(table: &Table, source: Src) -> Option<u16> {
    for at in 0..table.count() {
        if table.row(at).src.0 == source.0 {
            return Some(at);
        }
    }
    None
}

// The row of a SrcID, by halving or by a look at each row.
fn looked_up(table: &Table, source: Src, scan: bool) -> Option<u16> {
    if scan {
        scanned(table, source)
    } else {
        table.current(source)
    }
}

/// Looks up the pairings of so many rows in turn, so many times in all, and prints the sum of their numbers. With the last number
/// 1 each row is looked at in turn, as a table without an index would.
pub fn run(rt: &HostRuntime, (rows, lookups, scan): (u32, u32, u32)) -> Result<()> {
    ensure!(0 < rows && rows <= 1024, "1 to 1,024 rows");
    let store = filled(rt.alloc(), rows as u16).context("the store isn't filled")?;
    let table = store.rows();
    let mut sum = 0u64;
    for number in 0..lookups {
        let found = looked_up(table, Src(1 + number % rows), scan == 1);
        sum = sum.wrapping_add(u64::from(found.context("a pairing isn't found")?));
    }
    println!(rt; "rows {rows} sum {sum}")?;
    Ok(())
}
