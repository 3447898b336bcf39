//! The ground that every other crate stands on: lists of octets, the identifiers of Green Power, and the
//! two sides of the outside world.
//! To the layer above, octet lists are lists of numbers, and a `Source` or an `Out` is what is left to
//! read or was written, where it tells it, beside a count of faults that never falls. `Steps` is a count of work.
//! The contracts cite `Outside` for those two, `Fake` for the ones in memory, `Walk` for the reader, `Field` for the
//! fields of a grammar and `Identity` for identifiers; `Table` serves the definitions of grammars.
#![tactic(auto)]

pub mod field;
mod identity;
mod memory_out;
mod memory_source;
mod octets;
mod outside;
pub mod place;
mod read_source;
mod reader;
mod steps;
mod word;
mod write_out;

pub use identity::{Key, KeyKind, Level, Mode, Src, derived_group};
pub use memory_out::MemoryOut;
pub use memory_source::MemorySource;
pub use octets::Octets;
pub use outside::{Failed, NoMemory, Out, Source};
pub use read_source::ReadSource;
pub use reader::Reader;
pub use steps::Steps;
pub use word::Word;
pub use write_out::WriteOut;
