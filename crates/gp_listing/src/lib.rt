//! What is listed of a captured line, as text and as JSON, with and without a key that opens secured frames; and of a packet of
//! a capture file.
//! To the layer above, `push_line` adds exactly the listing of a line in a form, or says that it is no line of a capture, and
//! `push_packet` adds exactly the line of a packet.
//! The contracts cite `Form`, which gives the listing of each form: `Listing` with `Messages` as text, `Json` as JSON, and
//! `Opening`, what a key tells of a frame; and `Packets`.
#![tactic(auto)]

mod form;
mod json;
mod listing;
mod message;
mod opening;
mod packet;
mod text;

pub use form::{ListingForm, Style, push_line};
pub use listing::Unlisted;
pub use packet::push_packet;
