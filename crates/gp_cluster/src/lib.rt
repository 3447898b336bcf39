//! The messages of the Green Power cluster, read from octets and spelled as octets.
//! To the layer above a message is a value beside its one spelling: `decode` gives the message that octets spell,
//! or the first fault from the left; `valid` tells which values have a spelling, and `encode` gives it. The
//! contracts cite `Message`, which relates the two as one concatenation of a header and the fields that are there
//! in order, and `first_reason`, a table of conditions on places. No call takes memory.
//!
//! The header is that of a cluster's own command (Zigbee Cluster Library, 2.4.1). The messages are those of Zigbee
//! PRO Green Power, A.3.3.4 and A.3.3.5. All numbers stand least significant octet first. Option bits that no field
//! depends on are kept as they are.
#![tactic(auto)]

mod field;
mod kind;
mod message;
mod mode;
mod notification;
pub mod options;
mod pairing;
mod reading;
mod response;
mod tunnel;
mod writing;

pub use message::{
    Cluster, ClusterReason, CommissioningNotice, Dest, Notification, Pairing, ProxyMode, Response,
    Sent, Zcl,
};
pub use reading::decode;
pub use writing::{encode, valid};
