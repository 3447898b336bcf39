//! The program as one call: arguments, a source, an output and a disk in, a status, the disk and the world of a script out.
//! To the layer above, `run` says for every status what was read, written and left on the disk, and when it comes.
//! The contracts cite `Command`, what the arguments ask for, `Outcome`, what comes of an input by the listing that they ask
//! for, `Leaves`, what a run leaves by its status, `Formatting`, what formatting leaves, and `Playing` of gp_simulation, what the run of
//! a script leaves.
#![tactic(auto)]

mod command;
mod decoding;
mod running;

pub use gp_lines::{DiskReason, Status};
pub use running::run;
