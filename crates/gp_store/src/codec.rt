//! The octets of a slot behind its gate, both ways: a row is spelled into them, and its values are read from them.
ghost use Rattle.std.specs.Prelude.{◌≡◌, ◌↔◌, ◌<◌, ◌≤◌, ◌+◌, ◌^◌, ◌++◌, ◌∷◌, [], Bool, length, replicate, IsTrue, MatchOption};
ghost use Rattle.std.specs.Int.{w16, w32, w64, to_le_bytes};
ghost use Rattle.arrayvec.specs.ArrayVec.{array_vec_len};
ghost use Rattle.gp_base.specs.Identity.{kind_number, level_number, mode_number};
ghost use Rattle.gp_store.specs.Slot.{generation, rest, live_number, Shows, Spelled};
ghost use Rattle.gp_store.specs.Slots.{IsFormed, IsNumbered, HasKinds};

use arrayvec::ArrayVec;
use gp_base::place::{eight_at, four_at, key_at, two_at};
use gp_base::{KeyKind, Level, Mode, Src};
use gp_rows::Row;

// Where the fields stand behind the gate. The gate is octet 0 of the slot, so octet 9 has the place 9 - 1.
const GENERATION: usize = 1 - 1;

const SOURCE: usize = 9 - 1;

const KEY: usize = 13 - 1;

const KIND: usize = 29 - 1;

const LEVEL: usize = 30 - 1;

const MODE: usize = 31 - 1;

const GROUP: usize = 32 - 1;

const DEVICE: usize = 34 - 1;

const LIVE: usize = 35 - 1;

const ORDER: usize = 36 - 1;

const FLOOR: usize = 44 - 1;

const REST: usize = 48 - 1;

// Appends octets for which there is room.
pub fn append(octets: &mut ArrayVec<u8, 63>, field: &[u8])
    requires { array_vec_len octets.old + length field.now ≤ 63 }
    ensures items { octets.new.items ≡ octets.old.items ++ field.now }
    ensures len { array_vec_len octets.new ≡ array_vec_len octets.old + length field.now }
{
    let _ = octets.try_extend_from_slice(field);
}

// Octets 1 to 28: generation, SrcID and key.
fn spell_name(octets: &mut ArrayVec<u8, 63>, row: &Row, generation: u64)
    requires { array_vec_len octets.old ≡ 0 }
    ensures items { octets.new.items ≡ octets.old.items ++ to_le_bytes w64 generation ++ to_le_bytes w32 row.now.src.0 ++ row.now.key.0 }
    ensures len { array_vec_len octets.new ≡ 28 }
    ensures key { length row.now.key.0 ≡ 16 }
    ensures source { row.now.src.0 < 2 ^ 32 }
{
    append(octets, &generation.to_le_bytes());
    append(octets, &row.src.0.to_le_bytes());
    append(octets, &row.key.0);
}

// Octets 29 to 35: kind, level, mode, group, DeviceID and live.
fn spell_pairing(octets: &mut ArrayVec<u8, 63>, row: &Row)
    requires { array_vec_len octets.old ≡ 28 }
    ensures items { octets.new.items ≡ octets.old.items ++ kind_number row.now.kind ∷ level_number row.now.level ∷ mode_number row.now.mode ∷ [] ++ to_le_bytes w16 row.now.group ++ row.now.device ∷ live_number row.now.live ∷ [] }
    ensures len { array_vec_len octets.new ≡ 35 }
    ensures group { row.now.group < 2 ^ 16 }
{
    append(
        octets,
        &[row.kind.number(), row.level.number(), row.mode.number()],
    );
    append(octets, &row.group.to_le_bytes());
    append(octets, &[row.device, u8::from(row.live)]);
}

// Octets 36 to 63: order, floor and zeros.
fn spell_numbers(octets: &mut ArrayVec<u8, 63>, row: &Row)
    requires { array_vec_len octets.old ≡ 35 }
    ensures items { octets.new.items ≡ octets.old.items ++ to_le_bytes w64 row.now.order ++ to_le_bytes w32 row.now.floor ++ replicate 16 0 }
    ensures len { array_vec_len octets.new ≡ 63 }
    ensures order { row.now.order < 2 ^ 64 }
    ensures floor { row.now.floor < 2 ^ 32 }
{
    append(octets, &row.order.to_le_bytes());
    append(octets, &row.floor.to_le_bytes());
    append(octets, &[0; 16]);
}

/// The octets that spell a row under a generation.
pub fn spell(row: &Row, generation: u64) -> ArrayVec<u8, 63>
    ensures length { length result.items ≡ 63 }
    ensures spelled { Spelled result.items row.now generation }
{
    let mut octets = ArrayVec::new();
    spell_name(&mut octets, row, generation);
    spell_pairing(&mut octets, row);
    spell_numbers(&mut octets, row);
    octets
}

/// The generation of a slot.
#[tactic(auto, unfolding(crate::specs::Slot::generation))]
pub fn generation_of(octets: &[u8]) -> u64
    requires { length octets.now ≡ 63 }
    ensures { result ≡ generation octets.now }
{
    eight_at(octets, GENERATION)
}

// The flag of this number, where there is one.
fn live_of(number: u8) -> Option<bool>
    ensures { MatchOption result ((b : Bool) → live_number b ≡ number → ⊥) (λ b. live_number b ≡ number) }
{
    match number {
        0 => Some(false),
        1 => Some(true),
        _ => None,
    }
}

// Sixteen octets are zero.
fn are_zero(octets: &[u8]) -> bool
    requires { length octets.now ≡ 16 }
    ensures { IsTrue result ↔ (octets.now ≡ replicate 16 0) }
{
    octets.iter().all(|octet| *octet == 0)
}

// The last octets of a slot are zero.
#[tactic(auto, unfolding(crate::specs::Slot::rest))]
fn ends_in_zeros(octets: &[u8]) -> bool
    requires { length octets.now ≡ 63 }
    ensures { IsTrue result ↔ (rest octets.now ≡ replicate 16 0) }
{
    are_zero(&octets[REST..REST + 16])
}

// The values of a slot, whether or not it is well formed by its numbers, where its kind, level, mode and live are ones.
#[tactic(auto, unfolding(crate::specs::Slot::source, crate::specs::Slot::key, crate::specs::Slot::kind, crate::specs::Slot::level, crate::specs::Slot::mode, crate::specs::Slot::group, crate::specs::Slot::device, crate::specs::Slot::live, crate::specs::Slot::order, crate::specs::Slot::floor))]
fn values(octets: &[u8]) -> Option<Row>
    requires { length octets.now ≡ 63 }
    ensures { MatchOption result (HasKinds octets.now → ⊥) (λ row. HasKinds octets.now × Shows octets.now 0 row) }
{
    let kind = KeyKind::of_number(octets[KIND])?;
    let level = Level::of_number(octets[LEVEL])?;
    let mode = Mode::of_number(octets[MODE])?;
    let live = live_of(octets[LIVE])?;
    Some(Row {
        src: Src(four_at(octets, SOURCE)),
        key: key_at(octets, KEY),
        kind,
        level,
        mode,
        group: two_at(octets, GROUP),
        device: octets[DEVICE],
        order: eight_at(octets, ORDER),
        live,
        floor: four_at(octets, FLOOR),
    })
}

// A slot's numbers and zeros are in order.
fn is_numbered(octets: &[u8], row: &Row) -> bool
    requires size { length octets.now ≡ 63 }
    requires shows { Shows octets.now 0 row.now }
    ensures { IsTrue result ↔ IsNumbered octets.now }
{
    let generation = generation_of(octets);
    0 < generation
        && 0 < row.order
        && row.order <= generation
        && row.src.pairable()
        && ends_in_zeros(octets)
}

/// The values of a slot whose octets break no rule by themselves.
pub fn formed(octets: &[u8]) -> Option<Row>
    requires { length octets.now ≡ 63 }
    ensures { MatchOption result (IsFormed octets.now → ⊥) (λ row. IsFormed octets.now × Shows octets.now 0 row) }
{
    let row = values(octets)?;
    if !is_numbered(octets, &row) {
        return None;
    }
    Some(row)
}
