//! Numbers of a capture file, and what they say: judged as far as they have come.

ghost use Rattle.std.specs.Prelude.{◌≡◌, ℕ, ◌+◌, ◌<◌, ◌≤◌, ◌↔◌, List, Bool, true, false, length, IsTrue, MatchOption, Some};
ghost use Rattle.gp_pcap.specs.Capture as spec;
ghost use Rattle.gp_pcap.specs.Capture.{two_of, four_of, is_most_first, is_magic, is_version, included_of, original_of, kept_size};
ghost use Rattle.gp_pcap.specs.Judging.{IsJudged, IsHeadJudged};

use crate::PcapReason;
use std::cmp::min;

/// What one octet more makes of a header.
#[derive(Clone, Copy)]
pub enum HeaderStep {
    /// It goes on. From its fourth octet on this is the order of the numbers.
    On(bool),
    /// It is whole: the order of the numbers, and whether frames have an FCS.
    Whole(bool, bool),
    /// It is refused, at a place for a reason.
    Refused(u64, PcapReason),
}

/// What one octet more makes of the head of a packet.
#[derive(Clone, Copy)]
pub enum HeadStep {
    /// It goes on.
    On,
    /// The packet includes more octets than one may.
    TooLong,
    /// It is whole, and no octet is included.
    Empty,
    /// It is whole, and so many octets are included, of which so many are wanted.
    Includes(u32, usize),
}

// A number of two octets.
fn two(most: bool, octets: &[u8], at: usize) -> u16
    requires { at + 1 < length octets.now }
    ensures { result ≡ two_of most octets.now at }
{
    if most {
        u16::from_le_bytes([octets[at + 1], octets[at]])
    } else {
        u16::from_le_bytes([octets[at], octets[at + 1]])
    }
}

/// A number of four octets.
pub fn four(most: bool, octets: &[u8], at: usize) -> u32
    requires { at + 3 < length octets.now }
    ensures { result ≡ four_of most octets.now at }
{
    if most {
        u32::from_le_bytes([octets[at + 3], octets[at + 2], octets[at + 1], octets[at]])
    } else {
        u32::from_le_bytes([octets[at], octets[at + 1], octets[at + 2], octets[at + 3]])
    }
}

/// Judges a header by its last octet, where what stands before it is good.
pub fn judge_header(most: bool, head: &[u8]) -> HeaderStep
    requires some { 0 < length head.now }
    requires part { length head.now ≤ 24 }
    requires order { 4 < length head.now → most ≡ is_most_first head.now }
    requires magic { 4 < length head.now → is_magic head.now ≡ true }
    requires version { 6 < length head.now → is_version head.now ≡ true }
    ensures { IsJudged head.now result }
{
    match head.len() {
        4 => judge_magic(head),
        6 => judge_version(most, head),
        24 => judge_link(most, head),
        _ => HeaderStep::On(most),
    }
}

fn judge_magic(head: &[u8]) -> HeaderStep
    requires { length head.now ≡ 4 }
    ensures { IsJudged head.now result }
{
    if is_magic(head) {
        HeaderStep::On(is_most_first(head))
    } else {
        HeaderStep::Refused(0, PcapReason::Magic)
    }
}

fn judge_version(most: bool, head: &[u8]) -> HeaderStep
    requires part { length head.now ≡ 6 }
    requires order { most ≡ is_most_first head.now }
    requires magic { is_magic head.now ≡ true }
    ensures { IsJudged head.now result }
{
    if is_version(most, head) {
        HeaderStep::On(most)
    } else {
        HeaderStep::Refused(4, PcapReason::Version)
    }
}

fn judge_link(most: bool, head: &[u8]) -> HeaderStep
    requires part { length head.now ≡ 24 }
    requires order { most ≡ is_most_first head.now }
    requires magic { is_magic head.now ≡ true }
    requires version { is_version head.now ≡ true }
    ensures { IsJudged head.now result }
{
    if is_link(most, head) {
        HeaderStep::Whole(most, has_check(most, head))
    } else {
        HeaderStep::Refused(20, PcapReason::Link)
    }
}

// Whether numbers stand most significant octet first.
fn is_most_first(head: &[u8]) -> bool
    requires { 0 < length head.now }
    ensures { result ≡ spec.is_most_first head.now }
{
    head[0] == 0xA1
}

// Whether the first four octets are one of the four magic numbers.
fn is_magic(head: &[u8]) -> bool
    requires { 3 < length head.now }
    ensures { result ≡ spec.is_magic head.now }
{
    let magic = four(is_most_first(head), head, 0);
    magic == 0xA1B2_C3D4 || magic == 0xA1B2_3C4D
}

// Whether the major version is 2.
fn is_version(most: bool, head: &[u8]) -> bool
    requires some { 5 < length head.now }
    requires order { most ≡ is_most_first head.now }
    ensures { result ≡ spec.is_version head.now }
{
    two(most, head, 4) == 2
}

// The link type.
fn link_of(most: bool, head: &[u8]) -> u32
    requires some { 23 < length head.now }
    requires order { most ≡ is_most_first head.now }
    ensures { result ≡ spec.link_of head.now }
{
    four(most, head, 20) % 65536
}

// Whether frames have an FCS, by the link type.
fn has_check(most: bool, head: &[u8]) -> bool
    requires some { 23 < length head.now }
    requires order { most ≡ is_most_first head.now }
    ensures { result ≡ spec.has_check head.now }
{
    link_of(most, head) == 195
}

// Whether packets are frames of IEEE 802.15.4, by the link type.
fn is_link(most: bool, head: &[u8]) -> bool
    requires some { 23 < length head.now }
    requires order { most ≡ is_most_first head.now }
    ensures { result ≡ spec.is_link head.now }
{
    has_check(most, head) || link_of(most, head) == 230
}

/// Judges the head of a packet by its last octet, where what stands before it is good.
pub fn judge_head(most: bool, checked: bool, head: &[u8]) -> HeadStep
    requires part { length head.now ≤ 16 }
    requires good { 12 < length head.now → included_of most head.now ≤ 65535 }
    ensures { IsHeadJudged most checked head.now result }
{
    match head.len() {
        12 if four(most, head, 8) > 65535 => HeadStep::TooLong,
        16 => match four(most, head, 8) {
            0 => HeadStep::Empty,
            count => HeadStep::Includes(count, wanted(most, checked, head)),
        },
        _ => HeadStep::On,
    }
}

// How many octets of a packet are wanted, by its head.
fn wanted(most: bool, checked: bool, head: &[u8]) -> usize
    requires { 16 ≤ length head.now }
    ensures { result ≡ kept_size checked (included_of most head.now) (original_of most head.now) }
{
    min(
        126,
        frame_size(checked, four(most, head, 8), four(most, head, 12)) as usize,
    )
}

// How many of the included octets are the frame's.
fn frame_size(checked: bool, included: u32, original: u32) -> u32
    ensures { result ≡ spec.frame_size checked included original }
{
    if !checked {
        included
    } else if original <= included {
        included.saturating_sub(2)
    } else {
        min(included, original.saturating_sub(2))
    }
}
