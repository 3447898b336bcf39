//! What stands at a place of a list of octets that has it, and a push where there is room. Numbers are least significant
//! octet first.

ghost use Rattle.std.specs.Prelude.{◌≡◌, ◌+◌, ◌<◌, ◌≤◌, [], ◌∷◌, ◌++◌, length, vec_capacity};
ghost use Rattle.std.specs.Int.{w16, w32, w64, from_le_bytes};
ghost use Rattle.gp_base.specs.Field as words;
ghost use Rattle.gp_base.specs.Field.{part};

use crate::identity::Key;

/// The number in two octets from a place on.
#[tactic(auto, using(crate::proofs::Codec::two_told))]
pub fn two_at(octets: &[u8], at: usize) -> u16
    requires { at + 2 ≤ length octets.now }
    ensures value { result ≡ words.two_at octets.now at }
    ensures part { result ≡ from_le_bytes w16 (part octets.now at 2) }
{
    u16::from_le_bytes([octets[at], octets[at + 1]])
}

/// The number in four octets from a place on.
#[tactic(auto, using(crate::proofs::Codec::four_told))]
pub fn four_at(octets: &[u8], at: usize) -> u32
    requires { at + 4 ≤ length octets.now }
    ensures value { result ≡ words.four_at octets.now at }
    ensures part { result ≡ from_le_bytes w32 (part octets.now at 4) }
{
    u32::from_le_bytes([octets[at], octets[at + 1], octets[at + 2], octets[at + 3]])
}

/// The number in eight octets from a place on.
#[tactic(auto, using(crate::proofs::Codec::eight_told))]
pub fn eight_at(octets: &[u8], at: usize) -> u64
    requires { at + 8 ≤ length octets.now }
    ensures value { result ≡ words.eight_at octets.now at }
    ensures part { result ≡ from_le_bytes w64 (part octets.now at 8) }
{
    u64::from_le_bytes([
        octets[at],
        octets[at + 1],
        octets[at + 2],
        octets[at + 3],
        octets[at + 4],
        octets[at + 5],
        octets[at + 6],
        octets[at + 7],
    ])
}

/// The key in sixteen octets from a place on.
pub fn key_at(octets: &[u8], at: usize) -> Key
    requires { at + 16 ≤ length octets.now }
    ensures { result ≡ words.key_at octets.now at }
{
    Key::of(&octets[at..at + 16])
}

/// Puts an item at the end of a list that has room for it. It takes no memory.
pub fn put_last<T: Drop>(items: &mut Vec<T>, item: T)
    requires { length items.old.items < vec_capacity items.old }
    ensures added { items.new.items ≡ items.old.items ++ item ∷ [] }
    ensures room { vec_capacity items.old ≤ vec_capacity items.new }
{
    let _ = items.push(item);
}
