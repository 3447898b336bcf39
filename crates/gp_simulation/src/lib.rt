//! A script that is played on a network, line by line.
//! To the layer above, `simulate` reads a script from a source, plays each line on a world and writes its report; it says by the
//! status which lines were played, and what was read and written.
//! The contracts cite `Playing`: a run of the ideal network, which has all the properties, and whose report is what was written.
#![tactic(auto)]

mod running;
mod simulation;

pub use running::simulate;
