//! Frames of Green Power devices, read from octets and spelled as octets.
//! To the layer above, `decode` answers a value exactly where the octets are its spelling, and else the
//! first reason from the left why they are none; `valid` tells which values have a spelling, `encode` gives
//! it, and `header` gives the octets that a MIC covers besides the command. No call takes memory.
//! The contracts cite `Frame`, the relation between a value and its octets, and `first_reason`, the table of
//! reasons.
#![tactic(auto)]

mod decoding;
mod encoding;
mod frame;

pub use decoding::decode;
pub use encoding::{encode, header, valid};
pub use frame::{Ext, FrameReason, Gpdf, Mpdu};
