//! CCM over AES-128 (RFC 3610) with a nonce of 13 octets, which for these nonces and tags is CCM* too.
//! To the layer above, `seal` gives exactly the cipher text and the tag of a message, and `unseal` the message exactly
//! where the tag is right.
//! The contracts cite `ccm`, and both calls raise the ledger of counted work by exactly `cipher_calls`.
#![tactic(auto)]

mod chain;
mod octets;
mod sealing;
mod size;
mod stream;

pub use sealing::{BadTag, Sealed, seal, unseal};
pub use size::TagSize;
