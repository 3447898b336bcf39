//! `seal` and `unseal`.
ghost use Rattle.std.specs.Prelude.{◌≡◌, ◌≢◌, ℕ, ◌+◌, ◌≤◌, ◌⊎◌, List, length, IfOk, OnErr};
ghost use Rattle.std.specs.Result.{OkIff};
ghost use Rattle.gp_ccm.specs.Ccm.{ccm, cipher_calls, encrypted, octets_in, tag_of};

use crate::TagSize;
use crate::octets::are_same;
use crate::stream::{encrypted, tag_of};
use gp_aes::Schedule;
use gp_base::{Key, Octets, Steps};
use std::sync::ledger::Ledger;

/// A message that was sealed.
#[derive(PartialEq, Eq, Debug, Drop)]
pub struct Sealed {
    /// The cipher text, as long as the message.
    pub cipher: Octets,
    /// The tag over the authenticated octets and the message, encrypted.
    pub tag: Octets,
}

/// The tag isn't the one that the key gives for the authenticated octets and the message.
#[derive(Clone, Copy, PartialEq, Eq, Debug)]
pub struct BadTag;

/// Encrypts a message of at most 127 octets, and makes the tag over it and at most 127 authenticated octets (RFC 3610,
/// section 2). It takes no memory. Each call of the block cipher is one step.
pub fn seal<L: Ledger>(
    key: &Key,
    nonce: &[u8; 13],
    aad: &[u8],
    message: &[u8],
    size: TagSize,
    steps: &mut Steps<L>,
) -> Sealed
    requires aad { length aad.now ≤ 127 }
    requires message { length message.now ≤ 127 }
    ensures value { (result.cipher, result.tag) ≡ ccm key.now.0 nonce.now aad.now message.now (octets_in size) }
    ensures cipher_size { length result.cipher ≡ length message.now }
    ensures tag_size { length result.tag ≡ octets_in size }
    ensures cost { steps.new ≡ steps.old + cipher_calls aad.now message.now }
{
    let schedule = Schedule::new(&key.0);
    let tag = tag_of(&schedule, nonce, aad, message, size, steps);
    let cipher = encrypted(&schedule, nonce, message, steps);
    Sealed { cipher, tag }
}

/// Decrypts a cipher text of at most 127 octets under a tag of four or eight octets, which also covers at most 127
/// authenticated octets (RFC 3610, section 2). The answer is the message exactly where the tag is right, and else
/// `BadTag`. The whole tag is compared, wherever it differs; nothing is claimed of time. It takes no memory. Each call
/// of the block cipher is one step, and after `BadTag` only the steps have changed.
pub fn unseal<L: Ledger>(
    key: &Key,
    nonce: &[u8; 13],
    aad: &[u8],
    cipher: &[u8],
    tag: &[u8],
    steps: &mut Steps<L>,
) -> Result<Octets, BadTag>
    requires aad { length aad.now ≤ 127 }
    requires cipher { length cipher.now ≤ 127 }
    requires tag { (length tag.now ≡ 4) ⊎ (length tag.now ≡ 8) }

    ensures value { let message = encrypted key.now.0 nonce.now cipher.now in
        OkIff result (tag.now ≡ tag_of key.now.0 nonce.now aad.now message (length tag.now)) message }
    // In terms of all messages: the answer is one that seals to these octets, and `BadTag` says that there is none.
    ensures opened { IfOk result (λ message. ccm key.now.0 nonce.now aad.now message (length tag.now) ≡ (cipher.now, tag.now)) }
    ensures refused { OnErr result ((message : List ℕ) → ccm key.now.0 nonce.now aad.now message (length tag.now) ≢ (cipher.now, tag.now)) }
    ensures size { IfOk result (λ message. length message ≡ length cipher.now) }
    ensures cost { steps.new ≡ steps.old + cipher_calls aad.now cipher.now }
{
    let schedule = Schedule::new(&key.0);
    let message = encrypted(&schedule, nonce, cipher, steps);
    let expected = tag_of(
        &schedule,
        nonce,
        aad,
        message.as_slice(),
        TagSize::of(tag),
        steps,
    );
    if are_same(expected.as_slice(), tag) {
        Ok(message)
    } else {
        Err(BadTag)
    }
}
