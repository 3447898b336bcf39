//! Frames that are sealed.
ghost use Rattle.std.specs.Prelude.{◌≡◌, ◌<◌, ◌≤◌};

use anyhow::{Result, ensure};
use gp_base::{Key, Steps};
use gp_ccm::{TagSize, seal};
use std::marker::Brand;
use std::sync::ledger::{Blank, Ledger};

// The most command octets that a secured frame has.
const MOST: usize = 104;

const HEADER: [u8; 10] = [0x8c, 0x30, 0x21, 0x43, 0x65, 0x87, 0, 0, 0, 0];

const KEY: Key = Key([
    0xc0, 0xc1, 0xc2, 0xc3, 0xc4, 0xc5, 0xc6, 0xc7, 0xc8, 0xc9, 0xca, 0xcb, 0xcc, 0xcd, 0xce, 0xcf,
]);

// The sum over the tags of so many frames, with the frame counters from 0 on.
fn sum_of_tags<L: Ledger>(encrypt: bool, octets: usize, frames: u32, blank: Blank) -> u32
    requires octets { octets ≤ 104 }
    requires name { blank.name ≡ L.name }
    requires parts { blank.parts ≡ L.parts }
    requires some { 0 < L.parts }
{
    let mut steps = Steps::<L>::new(blank);
    let mut frame = [0x20u8; 114];
    frame[..10].copy_from_slice(&HEADER);
    let mut nonce = [
        0x21, 0x43, 0x65, 0x87, 0x21, 0x43, 0x65, 0x87, 0, 0, 0, 0, 0x05,
    ];
    let mut sum = 0u32;
    for counter in 0..frames {
        let number = counter.to_le_bytes();
        frame[6..10].copy_from_slice(&number);
        nonce[8..12].copy_from_slice(&number);
        let (aad, message) = if encrypt {
            (&frame[..10], &frame[10..10 + octets])
        } else {
            (&frame[..10 + octets], &frame[..0])
        };
        let sealed = seal(&KEY, &nonce, aad, message, TagSize::Four, &mut steps);
        for octet in sealed.tag.as_slice() {
            sum = sum.wrapping_mul(31).wrapping_add(*octet as u32);
        }
    }
    sum
}

/// Seals frames of a level, 2 or 3, with so many command octets, and prints how many and a sum over their tags.
pub fn run(rt: &HostRuntime, (level, octets, frames): (u32, u32, u32)) -> Result<()> {
    let octets = octets as usize;
    ensure!(level == 2 || level == 3, "no such level");
    ensure!(octets <= MOST, "too many octets");
    let sum = sum_of_tags::<Brand>(level == 3, octets, frames, Blank::new(1));
    println!(rt; "frames {frames} sum {sum}")?;
    Ok(())
}
