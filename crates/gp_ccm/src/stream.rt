//! The key stream, and what is added to it (RFC 3610, 2.3).
ghost use Rattle.std.specs.Prelude.{◌≡◌, ◌+◌, ◌≤◌, ◌==◌, length, take, if◌then◌else◌};
ghost use Rattle.gp_ccm.specs.Blocks.{block_count, xor_octets};
ghost use Rattle.gp_ccm.specs.Ccm.{counter_block, encrypted, octets_in, stream_block, tag_of};

use crate::TagSize;
use crate::chain::chained;
use crate::octets::{append_sum, around, with_added};
use gp_aes::Schedule;
use gp_base::{Octets, Steps};
use std::sync::ledger::Ledger;

/// The block whose encryption is block `i` of the key stream.
fn counter_block(nonce: &[u8; 13], i: u16) -> [u8; 16]
    ensures { result ≡ counter_block nonce.now i }
{
    around(1, nonce, i)
}

/// A message encrypted, or decrypted.
pub fn encrypted<L: Ledger>(
    schedule: &Schedule,
    nonce: &[u8; 13],
    message: &[u8],
    steps: &mut Steps<L>,
) -> Octets
    requires { length message.now ≤ 127 }
    ensures value { result ≡ encrypted schedule.now nonce.now message.now }
    ensures size { length result ≡ length message.now }
    ensures cost { steps.new ≡ steps.old + block_count (length message.now) }
{
    let mut out = Octets::new();
    let mut rest = message;
    let mut i = 1u16;
    while !rest.is_empty() {
        let (piece, others) = rest.split_at(rest.len().min(16));
        let block = schedule.encrypt(counter_block(nonce, i), steps);
        append_sum(&mut out, piece, &block);
        rest = others;
        i += 1;
    }
    out
}

/// The tag, from the end of the chain.
fn tag_from<L: Ledger>(
    schedule: &Schedule,
    nonce: &[u8; 13],
    x: [u8; 16],
    size: TagSize,
    steps: &mut Steps<L>,
) -> Octets
    ensures value { result ≡ take (octets_in size) (xor_octets x (stream_block schedule.now nonce.now 0)) }
    ensures size { length result ≡ octets_in size }
    ensures cost { steps.new ≡ steps.old + 1 }
{
    let block = schedule.encrypt(counter_block(nonce, 0), steps);
    let sum = with_added(x, &block);
    Octets::of(&sum[..size.octets()]).unwrap()
}

/// The tag over authenticated octets and a message.
pub fn tag_of<L: Ledger>(
    schedule: &Schedule,
    nonce: &[u8; 13],
    aad: &[u8],
    message: &[u8],
    size: TagSize,
    steps: &mut Steps<L>,
) -> Octets
    requires aad { length aad.now ≤ 127 }
    requires message { length message.now ≤ 127 }
    ensures value { result ≡ tag_of schedule.now nonce.now aad.now message.now (octets_in size) }
    ensures size { length result ≡ octets_in size }
    ensures cost { steps.new ≡ steps.old
        + (2 + (if length aad.now == 0 then 0 else block_count (length aad.now + 2)) + block_count (length message.now)) }
{
    let x = chained(schedule, nonce, aad, message, size, steps);
    tag_from(schedule, nonce, x, size, steps)
}
