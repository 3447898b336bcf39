//! The fields of a format, for the crates that read and write one: each is taken from a reader, and added to
//! octets that are being spelled. Numbers are least significant octet first.
//!
//! A reader of a field answers `Short` exactly where an octet of it is missing, and a writer `NoRoom` exactly where there
//! is no room for it. Either then changes nothing.

ghost use Rattle.std.specs.Prelude.{◌≡◌, ◌+◌, ◌<◌, ◌≤◌, ◌^◌, length, drop, IfSome, OnErr};
ghost use Rattle.std.specs.Int.{w16, w32, w64, to_le_bytes};
ghost use Rattle.gp_base.specs.Field.{two_at, four_at, eight_at, has_bit, optional, part, octet_at, key_at, size_if, value_if, octet as one, key_octets, src_octets, src_at, counted as behind_length, counted_at, Adds};
ghost use Rattle.gp_base.specs.Walk.{Takes, IsWithin};

use crate::identity::{Key, Src};
use crate::octets::Octets;
use crate::reader::Reader;

/// An octet of a field is missing.
#[derive(Clone, Copy, PartialEq, Eq, Debug)]
pub struct Short;

/// There is no room for a field.
#[derive(Clone, Copy, PartialEq, Eq, Debug)]
pub struct NoRoom;

// ---- flags, and octets that may be missing

/// Whether a flag is set, given by its weight in the octet.
pub fn is_set(octet: u8, weight: u8) -> bool
    requires { 0 < weight }
    ensures { result ≡ has_bit octet weight }
{
    octet / weight % 2 == 1
}

/// The octet at a place, 0 where none is there.
pub fn octet_or_zero(octets: &[u8], place: usize) -> u8
    ensures { result ≡ octet_at octets.now place }
{
    octets.get(place).copied().unwrap_or(0)
}

// ---- one octet

/// Takes the next octet.
pub fn octet(reader: &mut Reader) -> Result<u8, Short>
    ensures taken { Takes 1 (octet_at reader.old.octets reader.old.place) reader.old reader.new result }
    ensures kept { OnErr result (reader.new ≡ reader.old) }
{
    let Some(taken) = reader.take(1) else {
        return Err(Short);
    };
    Ok(taken[0])
}

/// Adds one octet.
pub fn add_octet(out: &mut Octets, octet: u8) -> Result<(), NoRoom>
    ensures added { Adds (one octet) out.old out.new result }
    ensures kept { OnErr result (out.new ≡ out.old) }
{
    add(out, &[octet])
}

/// Takes an octet that is there or not.
pub fn octet_if(reader: &mut Reader, there: bool) -> Result<Option<u8>, Short>
    requires { IsWithin reader.old }
    ensures taken { Takes (size_if there 1) (value_if there (octet_at reader.old.octets reader.old.place)) reader.old reader.new result }
    ensures kept { OnErr result (reader.new ≡ reader.old) }
{
    if !there {
        return Ok(None);
    }
    Ok(Some(octet(reader)?))
}

/// Adds an octet that is there or not.
pub fn add_octet_if(out: &mut Octets, octet: Option<u8>) -> Result<(), NoRoom>
    ensures added { Adds (optional one octet) out.old out.new result }
    ensures kept { OnErr result (out.new ≡ out.old) }
{
    match octet {
        Some(octet) => add_octet(out, octet),
        None => Ok(()),
    }
}

// ---- a number in two octets

/// Takes the next two octets as a number.
pub fn number16(reader: &mut Reader) -> Result<u16, Short>
    ensures taken { Takes 2 (two_at reader.old.octets reader.old.place) reader.old reader.new result }
    ensures kept { OnErr result (reader.new ≡ reader.old) }
{
    let Some(taken) = reader.take(2) else {
        return Err(Short);
    };
    Ok(u16::from_le_bytes([taken[0], taken[1]]))
}

/// Adds a number as two octets.
pub fn add_number16(out: &mut Octets, number: u16) -> Result<(), NoRoom>
    ensures added { Adds (to_le_bytes w16 number) out.old out.new result }
    ensures kept { OnErr result (out.new ≡ out.old) }
    ensures width { number < 2 ^ 16 }
{
    add(out, &number.to_le_bytes())
}

/// Takes a number of two octets that is there or not.
pub fn number16_if(reader: &mut Reader, there: bool) -> Result<Option<u16>, Short>
    requires { IsWithin reader.old }
    ensures taken { Takes (size_if there 2) (value_if there (two_at reader.old.octets reader.old.place)) reader.old reader.new result }
    ensures kept { OnErr result (reader.new ≡ reader.old) }
{
    if !there {
        return Ok(None);
    }
    Ok(Some(number16(reader)?))
}

/// Adds a number of two octets that is there or not.
pub fn add_number16_if(out: &mut Octets, number: Option<u16>) -> Result<(), NoRoom>
    ensures added { Adds (optional (to_le_bytes w16) number) out.old out.new result }
    ensures kept { OnErr result (out.new ≡ out.old) }
    ensures width { IfSome number (λ n. n < 2 ^ 16) }
{
    match number {
        Some(number) => add_number16(out, number),
        None => Ok(()),
    }
}

// ---- a number in four octets, a SrcID among them

/// Takes the next four octets as a number.
pub fn number32(reader: &mut Reader) -> Result<u32, Short>
    ensures taken { Takes 4 (four_at reader.old.octets reader.old.place) reader.old reader.new result }
    ensures kept { OnErr result (reader.new ≡ reader.old) }
{
    let Some(taken) = reader.take(4) else {
        return Err(Short);
    };
    Ok(u32::from_le_bytes([taken[0], taken[1], taken[2], taken[3]]))
}

/// Adds a number as four octets.
pub fn add_number32(out: &mut Octets, number: u32) -> Result<(), NoRoom>
    ensures added { Adds (to_le_bytes w32 number) out.old out.new result }
    ensures kept { OnErr result (out.new ≡ out.old) }
    ensures width { number < 2 ^ 32 }
{
    add(out, &number.to_le_bytes())
}

/// Takes a number of four octets that is there or not.
pub fn number32_if(reader: &mut Reader, there: bool) -> Result<Option<u32>, Short>
    requires { IsWithin reader.old }
    ensures taken { Takes (size_if there 4) (value_if there (four_at reader.old.octets reader.old.place)) reader.old reader.new result }
    ensures kept { OnErr result (reader.new ≡ reader.old) }
{
    if !there {
        return Ok(None);
    }
    Ok(Some(number32(reader)?))
}

/// Adds a number of four octets that is there or not.
pub fn add_number32_if(out: &mut Octets, number: Option<u32>) -> Result<(), NoRoom>
    ensures added { Adds (optional (to_le_bytes w32) number) out.old out.new result }
    ensures kept { OnErr result (out.new ≡ out.old) }
    ensures width { IfSome number (λ n. n < 2 ^ 32) }
{
    match number {
        Some(number) => add_number32(out, number),
        None => Ok(()),
    }
}

/// Takes the next four octets as a SrcID.
pub fn src(reader: &mut Reader) -> Result<Src, Short>
    ensures taken { Takes 4 (src_at reader.old.octets reader.old.place) reader.old reader.new result }
    ensures kept { OnErr result (reader.new ≡ reader.old) }
{
    Ok(Src(number32(reader)?))
}

/// Adds a SrcID as four octets.
pub fn add_src(out: &mut Octets, src: Src) -> Result<(), NoRoom>
    ensures added { Adds (src_octets src) out.old out.new result }
    ensures kept { OnErr result (out.new ≡ out.old) }
    ensures width { src.0 < 2 ^ 32 }
{
    add_number32(out, src.0)
}

/// Takes a SrcID that is there or not.
pub fn src_if(reader: &mut Reader, there: bool) -> Result<Option<Src>, Short>
    requires { IsWithin reader.old }
    ensures taken { Takes (size_if there 4) (value_if there (src_at reader.old.octets reader.old.place)) reader.old reader.new result }
    ensures kept { OnErr result (reader.new ≡ reader.old) }
{
    if !there {
        return Ok(None);
    }
    Ok(Some(src(reader)?))
}

/// Adds a SrcID that is there or not.
pub fn add_src_if(out: &mut Octets, src: Option<Src>) -> Result<(), NoRoom>
    ensures added { Adds (optional src_octets src) out.old out.new result }
    ensures kept { OnErr result (out.new ≡ out.old) }
    ensures width { IfSome src (λ s. s.0 < 2 ^ 32) }
{
    match src {
        Some(src) => add_src(out, src),
        None => Ok(()),
    }
}

// ---- a number in eight octets

/// Takes the next eight octets as a number.
pub fn number64(reader: &mut Reader) -> Result<u64, Short>
    ensures taken { Takes 8 (eight_at reader.old.octets reader.old.place) reader.old reader.new result }
    ensures kept { OnErr result (reader.new ≡ reader.old) }
{
    let Some(taken) = reader.take(8) else {
        return Err(Short);
    };
    Ok(u64::from_le_bytes([
        taken[0], taken[1], taken[2], taken[3], taken[4], taken[5], taken[6], taken[7],
    ]))
}

/// Adds a number as eight octets.
pub fn add_number64(out: &mut Octets, number: u64) -> Result<(), NoRoom>
    ensures added { Adds (to_le_bytes w64 number) out.old out.new result }
    ensures kept { OnErr result (out.new ≡ out.old) }
    ensures width { number < 2 ^ 64 }
{
    add(out, &number.to_le_bytes())
}

// ---- a MIC of four octets

/// Takes the next four octets, a MIC.
pub fn mic(reader: &mut Reader) -> Result<[u8; 4], Short>
    ensures taken { Takes 4 (part reader.old.octets reader.old.place 4) reader.old reader.new result }
    ensures kept { OnErr result (reader.new ≡ reader.old) }
{
    let Some(taken) = reader.take(4) else {
        return Err(Short);
    };
    Ok([taken[0], taken[1], taken[2], taken[3]])
}

/// Takes a MIC that is there or not.
pub fn mic_if(reader: &mut Reader, there: bool) -> Result<Option<[u8; 4]>, Short>
    requires { IsWithin reader.old }
    ensures taken { Takes (size_if there 4) (value_if there (part reader.old.octets reader.old.place 4)) reader.old reader.new result }
    ensures kept { OnErr result (reader.new ≡ reader.old) }
{
    if !there {
        return Ok(None);
    }
    Ok(Some(mic(reader)?))
}

/// Adds a MIC that is there or not.
pub fn add_mic_if(out: &mut Octets, mic: Option<[u8; 4]>) -> Result<(), NoRoom>
    ensures added { Adds (optional (λ octets. octets) mic) out.old out.new result }
    ensures kept { OnErr result (out.new ≡ out.old) }
    ensures width { IfSome mic (λ octets. length octets ≡ 4) }
{
    match mic {
        Some(mic) => add(out, &mic),
        None => Ok(()),
    }
}

// ---- a key of sixteen octets

/// Takes the next sixteen octets, a key.
pub fn key(reader: &mut Reader) -> Result<Key, Short>
    ensures taken { Takes 16 (key_at reader.old.octets reader.old.place) reader.old reader.new result }
    ensures kept { OnErr result (reader.new ≡ reader.old) }
{
    let Some(taken) = reader.take(16) else {
        return Err(Short);
    };
    Ok(Key::of(taken))
}

/// Takes a key that is there or not.
pub fn key_if(reader: &mut Reader, there: bool) -> Result<Option<Key>, Short>
    requires { IsWithin reader.old }
    ensures taken { Takes (size_if there 16) (value_if there (key_at reader.old.octets reader.old.place)) reader.old reader.new result }
    ensures kept { OnErr result (reader.new ≡ reader.old) }
{
    if !there {
        return Ok(None);
    }
    Ok(Some(key(reader)?))
}

/// Adds a key that is there or not.
pub fn add_key_if(out: &mut Octets, key: Option<Key>) -> Result<(), NoRoom>
    ensures added { Adds (optional key_octets key) out.old out.new result }
    ensures kept { OnErr result (out.new ≡ out.old) }
    ensures width { IfSome key (λ k. length (key_octets k) ≡ 16) }
{
    match key {
        Some(key) => add(out, &key.0),
        None => Ok(()),
    }
}

// ---- lists of octets

/// Takes the next `count` octets.
pub fn octets(reader: &mut Reader, count: usize) -> Result<Octets, Short>
    requires { length reader.old.octets ≤ 127 }
    ensures taken { Takes count (part reader.old.octets reader.old.place count) reader.old reader.new result }
    ensures kept { OnErr result (reader.new ≡ reader.old) }
{
    let Some(taken) = reader.take(count) else {
        return Err(Short);
    };
    match Octets::of(taken) {
        Some(octets) => Ok(octets),
        None => unreachable!(),
    }
}

/// Takes all octets that are left, and leaves the reader at the end.
pub fn rest(reader: &mut Reader) -> Octets
    requires { length reader.old.octets ≤ 127 }
    ensures octets { result ≡ drop reader.old.place reader.old.octets }
    ensures end { reader.new ≡ record reader.old { place = length reader.old.octets } }
{
    match Octets::of(reader.take_rest()) {
        Some(octets) => octets,
        None => unreachable!(),
    }
}

/// Adds octets at the end.
pub fn add(out: &mut Octets, part: &[u8]) -> Result<(), NoRoom>
    ensures added { Adds part.now out.old out.new result }
    ensures kept { OnErr result (out.new ≡ out.old) }
{
    if out.append(part) {
        Ok(())
    } else {
        Err(NoRoom)
    }
}

/// Adds a list of octets that is there or not.
pub fn add_octets_if(out: &mut Octets, octets: &Option<Octets>) -> Result<(), NoRoom>
    ensures added { Adds (optional (λ octets. octets) octets.now) out.old out.new result }
    ensures kept { OnErr result (out.new ≡ out.old) }
{
    match octets {
        Some(octets) => add(out, octets.as_slice()),
        None => Ok(()),
    }
}

// ---- a list of octets behind its length

/// Takes a length, and so many octets.
pub fn counted(reader: &mut Reader) -> Result<Octets, Short>
    requires { length reader.old.octets ≤ 127 }
    ensures taken { Takes (1 + octet_at reader.old.octets reader.old.place) (counted_at reader.old.octets reader.old.place) reader.old reader.new result }
    ensures kept { OnErr result (reader.new ≡ reader.old) }
{
    let Some(count) = reader.peek() else {
        return Err(Short);
    };
    let Some(taken) = reader.take(1 + count as usize) else {
        return Err(Short);
    };
    match Octets::of(&taken[1..]) {
        Some(octets) => Ok(octets),
        None => unreachable!(),
    }
}

/// Takes a list behind its length that is there or not.
pub fn counted_if(reader: &mut Reader, there: bool) -> Result<Option<Octets>, Short>
    requires within { IsWithin reader.old }
    requires room { length reader.old.octets ≤ 127 }
    ensures taken { Takes (size_if there (1 + octet_at reader.old.octets reader.old.place)) (value_if there (counted_at reader.old.octets reader.old.place)) reader.old reader.new result }
    ensures kept { OnErr result (reader.new ≡ reader.old) }
{
    if !there {
        return Ok(None);
    }
    Ok(Some(counted(reader)?))
}

/// Adds a list of octets behind its length.
pub fn add_counted(out: &mut Octets, octets: &Octets) -> Result<(), NoRoom>
    ensures added { Adds (behind_length octets.now) out.old out.new result }
    ensures kept { OnErr result (out.new ≡ out.old) }
    ensures width { length octets.now ≤ 127 }
{
    let octets = octets.as_slice();
    if out.room() < 1 + octets.len() {
        return Err(NoRoom);
    }
    add_octet(out, octets.len() as u8)?;
    add(out, octets)
}

/// Adds a list of octets that is there or not, behind its length.
pub fn add_counted_if(out: &mut Octets, octets: &Option<Octets>) -> Result<(), NoRoom>
    ensures added { Adds (optional behind_length octets.now) out.old out.new result }
    ensures kept { OnErr result (out.new ≡ out.old) }
{
    match octets {
        Some(octets) => add_counted(out, octets),
        None => Ok(()),
    }
}
