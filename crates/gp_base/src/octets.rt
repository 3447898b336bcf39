//! A list of at most 127 octets, which takes no memory.

ghost use Rattle.std.specs.Prelude.{◌≡◌, ◌+◌, ◌<◌, ◌≤◌, ◌↔◌, [], ◌∷◌, ◌++◌, length, IsTrue, if◌then◌else◌};
ghost use Rattle.std.specs.Option.{SomeIff};
ghost use Rattle.gp_base.specs.Field.{IsOctets};

use arrayvec::ArrayVec;
use std::marker::Model;

/// A list of at most 127 octets, the longest message that a node may send in one radio frame
/// (IEEE 802.15.4, aMaxPhyPacketSize). It lies in place and takes no memory.
#[derive(Clone, PartialEq, Eq, Debug, Drop)]
pub struct Octets {
    items: ArrayVec<u8, 127>,
}

impl Model for Octets {
    ghost use Rattle.std.specs.Prelude.{List, ℕ};

    ghost Value = { List ℕ };

    ghost view = { λ o. o.items.items };

    ghost inverse = { λ xs. record { items = record { items = xs } } };
}

impl Octets {
    /// The empty list.
    pub fn new() -> Octets
        ensures { result ≡ [] }
    {
        Octets {
            items: ArrayVec::new(),
        }
    }

    /// The list of these octets, and `None` exactly above 127 of them.
    pub fn of(octets: &[u8]) -> Option<Octets>
        ensures { SomeIff result (length octets.now ≤ 127) octets.now }
    {
        match ArrayVec::try_from(octets) {
            Ok(items) => Some(Octets { items }),
            Err(_) => None,
        }
    }

    /// Adds an octet at the end. It is `false` exactly where 127 octets stand, and then changes nothing.
    pub fn push(&mut self, octet: u8) -> bool
        ensures told { IsTrue result ↔ (length self.old < 127) }
        ensures after { self.new ≡ (if result then self.old ++ octet ∷ [] else self.old) }
    {
        if self.items.is_full() {
            return false;
        }
        self.items.push(octet);
        true
    }

    /// Adds octets at the end. It is `false` exactly where there is no room for all of them, and then changes nothing.
    pub fn append(&mut self, octets: &[u8]) -> bool
        ensures told { IsTrue result ↔ (length self.old + length octets.now ≤ 127) }
        ensures after { self.new ≡ (if result then self.old ++ octets.now else self.old) }
    {
        match self.items.try_extend_from_slice(octets) {
            Ok(()) => true,
            Err(_) => false,
        }
    }

    /// For how many octets more there is room.
    pub fn room(&self) -> usize
        ensures { result + length self.now ≡ 127 }
    {
        self.items.remaining_capacity()
    }

    /// The octets, first to last. Each is below 256.
    pub fn as_slice(&self) -> &[u8]
        ensures value { result.now ≡ self.now }
        ensures within { length result.now ≤ 127 }
        ensures octets { IsOctets self.now }
    {
        as_octets(self.items.as_slice())
    }

    /// Another list of the same octets. Unlike `clone` it has no failure to answer.
    pub fn copy(&self) -> Octets
        ensures { result ≡ self.now }
    {
        match Octets::of(self.as_slice()) {
            Some(octets) => octets,
            None => unreachable!(),
        }
    }
}

// A slice of octets, of which it says that each is below 256.
fn as_octets(slice: &[u8]) -> &[u8]
    ensures same { result.now ≡ slice.now }
    ensures octets { IsOctets slice.now }
{
    slice
}
