//! The lines of an input, in whatever pieces they come, and a work that takes them one by one.
//! To the layer above, `run_lines` lets a `Work` take the lines of a source in order and writes the text that it gives for
//! them; it says by the status which lines were taken, how the work then stands, and what was read and written.
//! The contracts cite `Leaves`, what a run leaves by its status, with `Lines` for the lines and their limits and `Work` for
//! what a work does with one line and with many.
#![tactic(auto)]

mod lines;
mod progress;
mod running;
mod status;
mod stop;
mod work;
mod writing;

pub use running::run_lines;
pub use status::{DiskReason, Status};
pub use work::{Halt, Work};
pub use writing::{last_words, write_all};
