//! The commands of Green Power devices, read from octets and written as octets.
//! To the layer above a command is a value beside its one spelling: `read` gives the command that octets spell,
//! or the first fault from the left; `sound` tells which commands have a spelling, and `write` gives it. The
//! contracts cite `Command`, which relates the two as one concatenation of an identifier, the fields that are
//! there in order, and the rest, and `first_reason`, a table of conditions on places. No call takes memory.
//!
//! The identifiers are those of Zigbee PRO Green Power, A.4.1, and the payloads those of A.4.2: Move and Step of
//! the level control commands, the 8-bit vector commands, attribute reporting, Commissioning, Channel Request,
//! Commissioning Reply and Channel Configuration. The entries of a report are those of the Report Attributes
//! command of the Zigbee Cluster Library, 2.5.11, and the sizes of their values those of its data types, 2.6.2,
//! where a string of length FF is no string at all.
//!
//! Octets after the last field of a command are kept as its rest, and commands that the table doesn't list are
//! carried as they are. All numbers stand least significant octet first.
#![tactic(auto)]

mod application;
mod command;
mod commissioning;
mod form;
mod keying;
mod level;
mod reading;
mod reply;
mod report;
mod value;
mod writing;

pub use command::{CommandReason, Commissioning, GpdCommand, Reply};
pub use reading::read;
pub use writing::{sound, write};
