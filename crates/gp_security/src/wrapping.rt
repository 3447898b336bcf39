//! Keys of devices, wrapped under a link key.

ghost use Rattle.std.specs.Prelude.{◌≡◌, ◌≢◌, ◌+◌, List, ℕ, IfOk, OnErr};
ghost use Rattle.gp_security.specs.Wrapping as words;
ghost use Rattle.gp_security.specs.Wrapping.{wrap};

use crate::nonce::{mic_of, nonce};
use gp_base::{Key, Octets, Src, Steps};
use gp_ccm::{BadTag, TagSize, seal, unseal};
use std::sync::ledger::Ledger;

/// Which way a wrapped key goes.
#[derive(Clone, Copy, PartialEq, Eq, Debug)]
pub enum Way {
    /// From the device, in its Commissioning frame.
    FromDevice,
    /// To the device, in a Commissioning Reply.
    ToDevice {
        /// The counter of the reply.
        counter: u32,
    },
}

/// A wrapped key.
#[derive(Clone, Copy, PartialEq, Eq, Debug)]
pub struct Wrapped {
    /// The key octets, encrypted.
    pub key: Key,
    /// The MIC over the SrcID and the key.
    pub mic: [u8; 4],
}

/// Wraps the key of a device under a link key (Zigbee PRO Green Power, A.3.7.1.2.3). It takes no memory. Each call of the
/// block cipher is one step, and there are five.
pub fn wrap_key<L: Ledger>(
    link: &Key,
    source: Src,
    way: Way,
    key: &Key,
    steps: &mut Steps<L>,
) -> Wrapped
    ensures value { (result.key.0, result.mic) ≡ wrap link.now.0 source.0 way key.now.0 }
    ensures cost { steps.new ≡ steps.old + 5 }
{
    let nonce = wrap_nonce(source, way);
    let source = source.0.to_le_bytes();
    let sealed = seal(link, &nonce, &source, &key.0, TagSize::Four, steps);
    Wrapped {
        key: Key::of(sealed.cipher.as_slice()),
        mic: mic_of(sealed.tag.as_slice()),
    }
}

/// Unwraps the key of a device (Zigbee PRO Green Power, A.3.7.1.2.3). The answer is the key exactly where it wraps to this
/// under the link key, and else `BadTag`. It takes no memory. Each call of the block cipher is one step, and there are
/// five; after `BadTag` only the steps have changed.
pub fn unwrap_key<L: Ledger>(
    link: &Key,
    source: Src,
    way: Way,
    wrapped: &Wrapped,
    steps: &mut Steps<L>,
) -> Result<Key, BadTag>
    // What is read wraps to this, and no other key does; where nothing is read, none does.
    ensures found { IfOk result (λ key. wrap link.now.0 source.0 way key.0 ≡ (wrapped.now.key.0, wrapped.now.mic)) }
    ensures only { IfOk result (λ key. (other : List ℕ) → wrap link.now.0 source.0 way other ≡ (wrapped.now.key.0, wrapped.now.mic) → other ≡ key.0) }
    ensures refused { OnErr result ((key : List ℕ) → wrap link.now.0 source.0 way key ≢ (wrapped.now.key.0, wrapped.now.mic)) }
    ensures cost { steps.new ≡ steps.old + 5 }
{
    unwrap(link, source, way, wrapped, steps)
}

/// The same.
fn unwrap<L: Ledger>(
    link: &Key,
    source: Src,
    way: Way,
    wrapped: &Wrapped,
    steps: &mut Steps<L>,
) -> Result<Key, BadTag>
    ensures found { IfOk result (λ key. wrap link.now.0 source.0 way key.0 ≡ (wrapped.now.key.0, wrapped.now.mic)) }
    ensures refused { OnErr result ((key : List ℕ) → wrap link.now.0 source.0 way key ≢ (wrapped.now.key.0, wrapped.now.mic)) }
    ensures cost { steps.new ≡ steps.old + 5 }
{
    let nonce = wrap_nonce(source, way);
    let source = source.0.to_le_bytes();
    match unseal(link, &nonce, &source, &wrapped.key.0, &wrapped.mic, steps) {
        Ok(octets) => Ok(Key::of(octets.as_slice())),
        Err(error) => Err(error),
    }
}

/// The nonce for a wrapped key.
fn wrap_nonce(source: Src, way: Way) -> [u8; 13]
    ensures { result ≡ words.wrap_nonce source.0 way }
{
    match way {
        Way::FromDevice => nonce(source.0, source.0, source.0),
        Way::ToDevice { counter } => nonce(0, source.0, counter),
    }
}
