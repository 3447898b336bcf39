//! The block cipher AES-128 (FIPS 197).
//! To the layer above, a `Schedule` is its key, and `encrypt` gives what the cipher gives for that key and a block.
//! The contracts cite `cipher`, and each block raises the ledger of counted work by exactly one.
#![tactic(auto)]

mod column;
mod round;
mod schedule;
mod tables;

pub use schedule::Schedule;
