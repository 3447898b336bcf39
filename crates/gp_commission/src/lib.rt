//! The commissioning of devices.
//! To the layer above, a commissioning command is an offer, or the first reason why there is none.
//! It has types alone so far, and no definition that a contract cites.
#![tactic(auto)]

mod offer;

pub use offer::{Offer, OfferReason, Offered};
