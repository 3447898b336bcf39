//! Protected frames and wrapped keys (Zigbee PRO Green Power, A.1.5.4, A.3.7.1.2.3 and A.4.2.1).
//! To the layer above, `seal_frame` gives the one frame that carries a command under a key, `unseal_frame` the command
//! exactly where the MIC of a frame is right, `wrap_key` and `unwrap_key` do the same for a key under a link key, and
//! `from_notice` gives the frame that a Commissioning Notification reports.
//! The contracts cite `Good` and `opened` for frames, `wrap` for keys and `rebuilt` for notifications. No call takes
//! memory. Each but `from_notice` raises the ledger of counted work by exactly its calls of the block cipher.
#![tactic(auto)]

mod frame;
mod nonce;
mod notice;
mod wrapping;

pub use frame::{seal_frame, unseal_frame};
pub use gp_ccm::BadTag;
pub use notice::from_notice;
pub use wrapping::{Way, Wrapped, unwrap_key, wrap_key};
