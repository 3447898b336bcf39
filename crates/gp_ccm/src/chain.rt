//! The chain over the blocks of authenticated octets and message (RFC 3610, 2.2).
ghost use Rattle.std.specs.Prelude.{◌≡◌, ◌+◌, ◌≤◌, ◌==◌, ◌++◌, length, if◌then◌else◌};
ghost use Rattle.gp_ccm.specs.Blocks.{block_count, blocks_of, two_octets};
ghost use Rattle.gp_ccm.specs.Ccm.{chain, chained, first_block, flags, header_blocks, octets_in};

use crate::TagSize;
use crate::octets::{around, with_added};
use arrayvec::ArrayVec;
use gp_aes::Schedule;
use gp_base::Steps;
use std::sync::ledger::Ledger;

/// The flags of the first block.
fn flags(aad: &[u8], size: TagSize) -> u8
    ensures { result ≡ flags aad.now (octets_in size) }
{
    let field = match size {
        TagSize::Four => 8,
        TagSize::Eight => 24,
    };
    if aad.is_empty() {
        field + 1
    } else {
        64 + field + 1
    }
}

/// The first block: flags, nonce and the length of the message.
fn first_block(nonce: &[u8; 13], aad: &[u8], message: &[u8], size: TagSize) -> [u8; 16]
    requires { length message.now ≤ 127 }
    ensures { result ≡ first_block nonce.now aad.now message.now (octets_in size) }
{
    around(flags(aad, size), nonce, message.len() as u16)
}

/// The chain from `x` over the blocks of a list.
fn absorb<L: Ledger>(
    schedule: &Schedule,
    x: [u8; 16],
    octets: &[u8],
    steps: &mut Steps<L>,
) -> [u8; 16]
    ensures value { result ≡ chain schedule.now x (blocks_of octets.now) }
    ensures cost { steps.new ≡ steps.old + block_count (length octets.now) }
{
    let mut x = x;
    let mut rest = octets;
    while !rest.is_empty() {
        let (block, others) = rest.split_at(rest.len().min(16));
        let next = schedule.encrypt(with_added(x, block), steps);
        x = next;
        rest = others;
    }
    x
}

/// The chain from `x` over the blocks of the authenticated octets.
fn absorb_header<L: Ledger>(
    schedule: &Schedule,
    x: [u8; 16],
    aad: &[u8],
    steps: &mut Steps<L>,
) -> [u8; 16]
    requires { length aad.now ≤ 127 }
    ensures value { result ≡ chain schedule.now x (header_blocks aad.now) }
    ensures cost { steps.new ≡ steps.old + (if length aad.now == 0 then 0 else block_count (length aad.now + 2)) }
{
    if aad.is_empty() {
        return x;
    }
    let mut header = ArrayVec::<u8, 129>::new();
    header.push((aad.len() / 256 % 256) as u8);
    header.push((aad.len() % 256) as u8);
    // It can't fail: 2 and at most 127 octets fit.
    let _ = header.try_extend_from_slice(aad);
    absorb(schedule, x, header.as_slice(), steps)
}

/// The whole chain, from the first block on.
pub fn chained<L: Ledger>(
    schedule: &Schedule,
    nonce: &[u8; 13],
    aad: &[u8],
    message: &[u8],
    size: TagSize,
    steps: &mut Steps<L>,
) -> [u8; 16]
    requires aad { length aad.now ≤ 127 }
    requires message { length message.now ≤ 127 }
    ensures value { result ≡ chained schedule.now nonce.now aad.now message.now (octets_in size) }
    ensures cost { steps.new ≡ steps.old
        + (1 + (if length aad.now == 0 then 0 else block_count (length aad.now + 2)) + block_count (length message.now)) }
{
    let first = schedule.encrypt(first_block(nonce, aad, message, size), steps);
    let header = absorb_header(schedule, first, aad, steps);
    absorb(schedule, header, message, steps)
}
