//! Work to be timed by the scripts of bench/: `cipher LEVEL OCTETS FRAMES` seals frames as a device does,
//! `store ROWS RECOVERIES FLOORS` recovers a store and commits floors, and `rows ROWS LOOKUPS SCAN` looks up pairings.
#![tactic(auto)]

mod cipher;
mod rows;
mod store;

use anyhow::{Context, Result, bail};
use std::env;

/// The next argument as a number.
fn number(word: Option<String>) -> Result<u32> {
    let word = word.context("three numbers are wanted")?;
    let value = word.as_str().parse::<u32>().context("not a number")?;
    Ok(value)
}

fn main(rt: HostRuntime) -> Result<()> {
    let mut words = env::args(&rt)?;
    let _ = words.next();
    let work = words
        .next()
        .context("usage: cipher, store or rows, and three numbers")?;
    let numbers = (
        number(words.next())?,
        number(words.next())?,
        number(words.next())?,
    );
    match work.as_str() {
        "cipher" => cipher::run(&rt, numbers),
        "store" => store::run(&rt, numbers),
        "rows" => rows::run(&rt, numbers),
        _ => bail!("none of cipher, store and rows"),
    }
}
