//! The kinds of words that a line is made of, each read as the next word.

ghost use Rattle.std.specs.Prelude.{◌≡◌, ◌∷◌, [], codes, ◌<◌, ◌≤◌, ◌^◌, IfSome};
ghost use Rattle.std.specs.Int.{w8, w16, w32, w64};
ghost use Rattle.gp_script.specs.Kinds as spec;
ghost use Rattle.gp_script.specs.Kinds.{Reads, next};

use crate::name::Name;
use crate::words::Words;
use gp_base::{Key, KeyKind, Level, Mode, Octets, Src};
use itoa::Buffer;

// The number that a word is, up to this one.
#[tactic(auto, unfolding(crate::specs::Kinds::number_in))]
pub(crate) fn number_in(word: &[u8], most: u64) -> Option<u64>
    ensures value { result ≡ spec.number_in most word.now }
    ensures within { IfSome result (λ number. number ≤ most) }
{
    let Ok(text) = str::from_utf8(word) else {
        return None;
    };
    let Ok(number) = text.parse::<u64>() else {
        return None;
    };
    let mut buffer = Buffer::new();
    if buffer.format(number).as_bytes() != word {
        return None;
    }
    if number > most {
        return None;
    }
    Some(number)
}

/// A decimal number of 64 bits, without sign and leading zero.
pub(crate) fn number64(words: &mut Words) -> Option<u64>
    ensures { Reads (next (spec.number_up_to 18446744073709551615)) words.old words.new result }
{
    number_in(words.next()?, u64::MAX)
}

/// A decimal number of 32 bits.
pub(crate) fn number32(words: &mut Words) -> Option<u32>
    ensures { Reads (next (spec.number_up_to 4294967295)) words.old words.new result }
{
    Some(number_in(words.next()?, 4294967295)? as u32)
}

/// A decimal number of 16 bits.
pub(crate) fn number16(words: &mut Words) -> Option<u16>
    ensures { Reads (next (spec.number_up_to 65535)) words.old words.new result }
{
    Some(number_in(words.next()?, 65535)? as u16)
}

/// A number of one octet in two hexadecimal digits.
pub(crate) fn hex8(words: &mut Words) -> Option<u8>
    ensures { Reads (next (spec.hex w8)) words.old words.new result }
{
    hex8_in(words.next()?)
}

#[tactic(auto, unfolding(crate::specs::Kinds::hex_in))]
fn hex8_in(word: &[u8]) -> Option<u8>
    ensures { result ≡ spec.hex_in w8 word.now }
{
    let mut octets = [0u8; 1];
    hex::decode_to_slice(word, &mut octets).ok()?;
    Some(u8::from_be_bytes(octets))
}

#[tactic(auto, unfolding(crate::specs::Kinds::hex_in))]
pub(crate) fn hex16_in(word: &[u8]) -> Option<u16>
    ensures { result ≡ spec.hex_in w16 word.now }
{
    let mut octets = [0u8; 2];
    hex::decode_to_slice(word, &mut octets).ok()?;
    Some(u16::from_be_bytes(octets))
}

#[tactic(auto, unfolding(crate::specs::Kinds::hex_in))]
fn hex32_in(word: &[u8]) -> Option<u32>
    ensures { result ≡ spec.hex_in w32 word.now }
{
    let mut octets = [0u8; 4];
    hex::decode_to_slice(word, &mut octets).ok()?;
    Some(u32::from_be_bytes(octets))
}

#[tactic(auto, unfolding(crate::specs::Kinds::key_in))]
fn key_in(word: &[u8]) -> Option<Key>
    ensures { result ≡ spec.key_in word.now }
{
    let mut octets = [0u8; 16];
    hex::decode_to_slice(word, &mut octets).ok()?;
    Some(Key(octets))
}

/// A number of two octets in four hexadecimal digits.
pub(crate) fn hex16(words: &mut Words) -> Option<u16>
    ensures { Reads (next (spec.hex w16)) words.old words.new result }
{
    hex16_in(words.next()?)
}

#[tactic(auto, unfolding(crate::specs::Kinds::hex_in))]
fn hex64_in(word: &[u8]) -> Option<u64>
    ensures { result ≡ spec.hex_in w64 word.now }
{
    let mut octets = [0u8; 8];
    hex::decode_to_slice(word, &mut octets).ok()?;
    Some(u64::from_be_bytes(octets))
}

/// A number of eight octets in sixteen hexadecimal digits.
pub(crate) fn hex64(words: &mut Words) -> Option<u64>
    ensures { Reads (next (spec.hex w64)) words.old words.new result }
{
    hex64_in(words.next()?)
}

/// A key, or `-` for none.
pub(crate) fn key_or_dash(words: &mut Words) -> Option<Option<Key>>
    ensures { Reads (next (spec.or_word (codes "-") spec.key)) words.old words.new result }
{
    let word = words.next()?;
    if word == b"-".as_slice() {
        return Some(None);
    }
    Some(Some(key_in(word)?))
}

/// A SrcID.
pub(crate) fn source(words: &mut Words) -> Option<Src>
    ensures { Reads (next spec.source) words.old words.new result }
{
    Some(Src(hex32_in(words.next()?)?))
}

/// A SrcID, or `any` for every one.
pub(crate) fn any_source(words: &mut Words) -> Option<Option<Src>>
    ensures { Reads (next (spec.or_word (codes "any") spec.source)) words.old words.new result }
{
    let word = words.next()?;
    if word == b"any".as_slice() {
        return Some(None);
    }
    Some(Some(Src(hex32_in(word)?)))
}

/// A key.
pub(crate) fn key(words: &mut Words) -> Option<Key>
    ensures { Reads (next spec.key) words.old words.new result }
{
    key_in(words.next()?)
}

/// A name.
pub(crate) fn name(words: &mut Words) -> Option<Name>
    ensures { Reads (next spec.name) words.old words.new result }
{
    Name::of(words.next()?)
}

/// The kind of a key.
pub(crate) fn key_kind(words: &mut Words) -> Option<KeyKind>
    ensures { Reads (next spec.key_kind) words.old words.new result }
{
    match words.next()? {
        b"1" => Some(KeyKind::Nwk),
        b"2" => Some(KeyKind::Group),
        b"3" => Some(KeyKind::DerivedGroup),
        b"4" => Some(KeyKind::OutOfBox),
        b"7" => Some(KeyKind::DerivedIndividual),
        _ => None,
    }
}

/// A level of security.
pub(crate) fn level(words: &mut Words) -> Option<Level>
    ensures { Reads (next spec.level) words.old words.new result }
{
    match words.next()? {
        b"2" => Some(Level::Two),
        b"3" => Some(Level::Three),
        _ => None,
    }
}

/// A mode of tunnelling.
pub(crate) fn mode(words: &mut Words) -> Option<Mode>
    ensures { Reads (next spec.mode) words.old words.new result }
{
    match words.next()? {
        b"1" => Some(Mode::Derived),
        b"2" => Some(Mode::Commissioned),
        b"3" => Some(Mode::Unicast),
        _ => None,
    }
}

/// Octets, or `-` for none.
pub(crate) fn octets(words: &mut Words) -> Option<Octets>
    ensures { Reads (next spec.octets) words.old words.new result }
{
    octets_in(words.next()?)
}

#[tactic(auto, unfolding(crate::specs::Kinds::octets_in))]
fn octets_in(word: &[u8]) -> Option<Octets>
    ensures { result ≡ spec.octets_in word.now }
{
    if word == b"-".as_slice() {
        return Some(Octets::new());
    }
    if word.is_empty() || word.len() > 254 {
        return None;
    }
    let mut octets = [0u8; 127];
    let octets = &mut octets[..word.len() / 2];
    hex::decode_to_slice(word, octets).ok()?;
    Octets::of(octets)
}

// Whether a letter is one of a to z.
pub(crate) fn has_small(word: &[u8]) -> bool
    ensures { result ≡ spec.has_small word.now }
{
    for letter in word {
        if letter.is_ascii_lowercase() {
            return true;
        }
    }
    false
}

/// A number of one octet, in upper case.
pub(crate) fn upper8(words: &mut Words) -> Option<u8>
    ensures { Reads (next (spec.upper (spec.hex w8))) words.old words.new result }
{
    let word = words.next()?;
    if has_small(word) {
        return None;
    }
    hex8_in(word)
}

/// A number of two octets, in upper case.
pub(crate) fn upper16(words: &mut Words) -> Option<u16>
    ensures { Reads (next (spec.upper (spec.hex w16))) words.old words.new result }
{
    let word = words.next()?;
    if has_small(word) {
        return None;
    }
    hex16_in(word)
}

/// A SrcID, in upper case.
pub(crate) fn upper_source(words: &mut Words) -> Option<Src>
    ensures { Reads (next (spec.upper spec.source)) words.old words.new result }
{
    let word = words.next()?;
    if has_small(word) {
        return None;
    }
    Some(Src(hex32_in(word)?))
}

/// Octets, in upper case, or `-` for none.
pub(crate) fn upper_octets(words: &mut Words) -> Option<Octets>
    ensures { Reads (next (spec.upper spec.octets)) words.old words.new result }
{
    let word = words.next()?;
    if has_small(word) {
        return None;
    }
    octets_in(word)
}

/// A decimal number of 8 bits, up to this one.
pub(crate) fn number8(words: &mut Words, most: u8) -> Option<u8>
    ensures { Reads (next (spec.number_up_to most)) words.old words.new result }
{
    Some(number_in(words.next()?, u64::from(most))? as u8)
}

/// A flag, `1` or `0`.
pub(crate) fn flag(words: &mut Words) -> Option<bool>
    ensures { Reads (next spec.flag) words.old words.new result }
{
    match words.next()? {
        b"0" => Some(false),
        b"1" => Some(true),
        _ => None,
    }
}

/// A name, or `-` for none.
pub(crate) fn name_or_dash(words: &mut Words) -> Option<Option<Name>>
    ensures { Reads (next (spec.or_word (codes "-") spec.name)) words.old words.new result }
{
    let word = words.next()?;
    if word == b"-".as_slice() {
        return Some(None);
    }
    Some(Some(Name::of(word)?))
}
