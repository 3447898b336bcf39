//! The ideal sink: what a sink remembers and what it answers, as definitions alone.
//! Its source declares the plain data that the definitions share with the program: what a sink remembers is a ledger of changes,
//! and its answer to octets or to an offer is a ruling by that ledger.
//! Contracts above cite `Ledger`, `Heard` and `Paired`, and `Fresh` for the frames on which a sink has to act.
#![tactic(auto)]

mod config;
mod ledger;

pub use config::Config;
pub use ledger::{Change, Known, Values};
