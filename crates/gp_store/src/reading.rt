//! The rows are read from their slots.
ghost use Rattle.std.specs.Prelude.{◌≡◌, ◌↔◌, ◌+◌, ◌<◌, ◌≤◌, true, false, [], ◌∷◌, ◌++◌, length, IsTrue, MatchOption, Some, None, vec_capacity};
ghost use Rattle.gp_rows.specs.Rows.{CAPACITY, IsNewPair, IsNewOrder};
ghost use Rattle.gp_store.specs.Slot.{Shows};
ghost use Rattle.gp_store.specs.Slots.{Slots, other_side};
ghost use Rattle.gp_store.specs.Reading.{FoundOf, Reads, EndsIll, IsJudged, Finds, slot_of};

use crate::codec::generation_of;
use crate::commit::Stale;
use crate::found::Found;
use crate::judging::judge;
use crate::octets::ReadSlot;
use gp_rows::{Row, Table};

// Puts one more at the end of a list that has room.
pub fn put_last<T: Drop>(list: &mut Vec<T>, item: T)
    requires { length list.old.items < vec_capacity list.old }
    ensures items { list.new.items ≡ list.old.items ++ item ∷ [] }
    ensures room { vec_capacity list.old ≤ vec_capacity list.new }
{
    let _ = list.push(item);
}

// Puts a row at the end of a table that has room.
pub fn put_row(table: &mut Table, row: Row)
    requires few { length table.old < CAPACITY }
    requires pair { IsNewPair table.old row }
    requires order { IsNewOrder table.old row }
    ensures { table.new ≡ table.old ++ row ∷ [] }
{
    let _ = table.add(row);
}

// One row more is found, by the octets of its newest slot, with its stale slot and the order in that one.
fn add(found: &mut Found, at: u16, octets: &[u8], row: Row, stale: Stale, older: u64)
    requires at { at < CAPACITY }
    requires size { length octets.now ≡ 63 }
    requires judged { IsJudged found.old.table found.old.older.items at octets.now }
    requires shows { Shows octets.now 0 row }
    requires found { FoundOf found.old }
    ensures found { FoundOf found.new }
    ensures reads { (v : Slots) → Reads v at found.old → Finds v at octets.now stale older → Reads v (at + 1) found.new }
{
    let generation = generation_of(octets);
    put_row(&mut found.table, row);
    put_last(&mut found.stale, stale);
    put_last(&mut found.older, older);
    found.last = found.last.max(generation);
}

// The values of an open slot of row `at`, judged by what has been found.
fn judged(found: &Found, at: u16, octets: &[u8]) -> Option<Row>
    requires size { length octets.now ≡ 63 }
    requires found { FoundOf found.now }
    ensures { MatchOption result (IsJudged found.now.table found.now.older.items at octets.now → ⊥) (λ row. IsJudged found.now.table found.now.older.items at octets.now × Shows octets.now 0 row) }
{
    judge(&found.table, &found.older, at, octets)
}

// Takes a row of which one slot is open, or answers the side of an ill slot.
fn take_one(found: &mut Found, at: u16, octets: &[u8], odd: bool) -> Option<bool>
    requires at { at < CAPACITY }
    requires size { length octets.now ≡ 63 }
    requires found { FoundOf found.old }
    ensures found { FoundOf found.new }
    ensures reads { MatchOption result
        ((v : Slots) → v at odd ≡ Some octets.now → v at (other_side odd) ≡ None → Reads v at found.old → Reads v (at + 1) found.new)
        (λ side. (v : Slots) → v at odd ≡ Some octets.now → v at (other_side odd) ≡ None → Reads v at found.old → EndsIll v at side) }
{
    let row = match judged(found, at, octets) {
        Some(row) => row,
        None => return Some(odd),
    };
    let stale = Stale {
        odd: !odd,
        is_open: false,
    };
    add(found, at, octets, row, stale, 0);
    None
}

// Two rows have the same SrcID and key.
fn is_same_pair(first: &Row, second: &Row) -> bool
    ensures { IsTrue result ↔ ((first.now.src.0 ≡ second.now.src.0) × (first.now.key.0 ≡ second.now.key.0)) }
{
    first.src.0 == second.src.0 && first.key.0 == second.key.0
}

// Takes a row of which both slots are open, or answers the side of the smallest ill slot.
fn take_two(found: &mut Found, at: u16, even: &[u8], odd: &[u8]) -> Option<bool>
    requires at { at < CAPACITY }
    requires size_even { length even.now ≡ 63 }
    requires size_odd { length odd.now ≡ 63 }
    requires found { FoundOf found.old }
    ensures found { FoundOf found.new }
    ensures reads { MatchOption result
        ((v : Slots) → v at false ≡ Some even.now → v at true ≡ Some odd.now → Reads v at found.old → Reads v (at + 1) found.new)
        (λ side. (v : Slots) → v at false ≡ Some even.now → v at true ≡ Some odd.now → Reads v at found.old → EndsIll v at side) }
{
    let first = match judged(found, at, even) {
        Some(first) => first,
        None => return Some(false),
    };
    let second = match judged(found, at, odd) {
        Some(second) => second,
        None => return Some(true),
    };
    if !is_same_pair(&first, &second) {
        return Some(true);
    }
    let first_generation = generation_of(even);
    let second_generation = generation_of(odd);
    if first_generation == second_generation {
        return Some(true);
    }
    if first_generation < second_generation {
        let stale = Stale {
            odd: false,
            is_open: true,
        };
        add(found, at, odd, second, stale, first.order);
        return None;
    }
    let stale = Stale {
        odd: true,
        is_open: true,
    };
    add(found, at, even, first, stale, second.order);
    None
}

/// Takes a row by its two slots, or answers the side of the smallest ill one.
pub fn take_row(found: &mut Found, at: u16, even: &ReadSlot, odd: &ReadSlot) -> Option<bool>
    requires at { at < CAPACITY }
    requires found { FoundOf found.old }
    ensures found { FoundOf found.new }
    ensures reads { MatchOption result
        ((v : Slots) → v at false ≡ slot_of even.now.is_open even.now.octets.items → v at true ≡ slot_of odd.now.is_open odd.now.octets.items → Reads v at found.old → Reads v (at + 1) found.new)
        (λ side. (v : Slots) → v at false ≡ slot_of even.now.is_open even.now.octets.items → v at true ≡ slot_of odd.now.is_open odd.now.octets.items → Reads v at found.old → EndsIll v at side) }
{
    match (even.is_open, odd.is_open) {
        (false, false) => None,
        (true, false) => take_one(found, at, &even.octets, false),
        (false, true) => take_one(found, at, &odd.octets, true),
        (true, true) => take_two(found, at, &even.octets, &odd.octets),
    }
}
