//! Pairings and counter floors that survive a power cut.
//! To the layer above, a store is its rows, its last generation, its disk, whether it is halted, and what is undecided
//! (`State`). At each moment of a commit a crash leaves a disk that holds the rows from before it or those with its one
//! change (`Commits`), and a recovery gives exactly the rows that the disk holds (`Holds`).
#![tactic(auto)]

mod codec;
mod commit;
mod fault;
mod formatting;
mod found;
mod holding;
mod judging;
mod keeper;
mod layout;
mod octets;
mod reading;
mod recovery;
mod rows;
mod slots;
mod store;
mod writing;

pub use fault::{CommitFault, Refused, StoreFault};
pub use formatting::format;
pub use holding::held;
pub use store::Store;
