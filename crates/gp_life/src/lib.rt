//! The life of one sink over a disk, line by line.
//! To the layer above, `live` reads the lines of a sink's life from a source, starts the sink over the disk where they set it up, and
//! writes what it reports; it says by the status which lines were lived, and what a crash of the disk then leaves.
//! The contracts cite `Living`: an ideal life over the rows of the disk (`Lived`), whose report is what was written; `Exact`: what
//! holds of each such life; and `Ending`: what is so whatever the status.
#![tactic(auto)]

mod awake;
mod running;
mod stage;

pub use running::live;
