//! The packets of a capture file, in whatever pieces it comes, listed one by one.
//! To the layer above, `list_packets` reads a capture file from a source and writes a line for each packet; it says by the status
//! which packets were listed, and what was read and written.
//! The contracts cite `Leaves`: what comes of a file, and what a run leaves by its status.
#![tactic(auto)]

mod progress;
mod running;
mod stop;

pub use running::list_packets;
