//! One sink: frames are heard, and devices paired, over a disk that survives a power cut.
//! To the layer above, a sink is its configuration, its rules and its store (`SinkState`), and stands for every ledger of changes that
//! its rows fit (`Fits`). What it answers, and what it then stands for, is what the ideal sink with such a ledger answers and
//! remembers (`Comes`): a verdict that changes what is remembered is given once the change is on the disk (`Makes`).
#![tactic(auto)]

mod announcing;
mod committing;
mod messages;
mod pairing;
mod ruling;
mod sink;
mod verdict;

pub use gp_ideal::Config;
pub use sink::Sink;
pub use verdict::{Cause, SinkFault, Verdict};
