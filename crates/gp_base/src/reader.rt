//! A walk over octets that keeps its place.

ghost use Rattle.std.specs.Prelude.{◌≡◌, ◌+◌, ◌<◌, ◌≤◌, ◌↔◌, length, take, drop, slice_index, IsSome, IfSome, IfNone};

use std::marker::Model;

/// A walk over a list of octets, from the first on. A contract sees the whole list, and the place: how
/// many octets have been taken.
#[derive(Drop)]
pub struct Reader<'a> {
    octets: &'a [u8],
    at: usize,
}

impl<'a> Model for Reader<'a> {
    ghost use Rattle.std.specs.Prelude.{◌≤◌, length};
    ghost use Rattle.gp_base.specs.Walk.{Walk};

    ghost Value = { Walk };

    ghost view = { λ r. record { octets = r.octets.now; place = r.at } };

    ghost invariant = { λ r. r.at ≤ length r.octets.now };
}

impl<'a> Reader<'a> {
    /// A reader before the first of these octets.
    pub fn new(octets: &'a [u8]) -> Reader<'a>
        ensures octets { result.octets ≡ octets.now }
        ensures start { result.place ≡ 0 }
    {
        Reader { octets, at: 0 }
    }

    /// Takes the next `count` octets. It is `None` exactly where fewer are left, and then changes nothing.
    pub fn take(&mut self, count: usize) -> Option<&'a [u8]>
        ensures variant { IsSome result ↔ (self.old.place + count ≤ length self.old.octets) }
        ensures taken { IfSome result (λ part. part.now ≡ take count (drop self.old.place self.old.octets)) }
        ensures moved { IfSome result (λ part. self.new ≡ record self.old { place = self.old.place + count }) }
        ensures kept { IfNone result (self.new ≡ self.old) }
        ensures within { self.new.place ≤ length self.new.octets }
    {
        if count > self.octets.len() - self.at {
            return None;
        }
        let octets: &'a [u8] = self.octets;
        let part = &octets[self.at..self.at + count];
        self.at += count;
        Some(part)
    }

    /// Takes all octets that are left.
    pub fn take_rest(&mut self) -> &'a [u8]
        ensures taken { result.now ≡ drop self.old.place self.old.octets }
        ensures moved { self.new ≡ record self.old { place = length self.old.octets } }
    {
        let octets: &'a [u8] = self.octets;
        let rest = &octets[self.at..];
        self.at = octets.len();
        rest
    }

    /// The next octet, which isn't taken. It is `None` exactly at the end.
    pub fn peek(&self) -> Option<u8>
        ensures variant { IsSome result ↔ (self.now.place < length self.now.octets) }
        ensures value { IfSome result (λ octet. octet ≡ slice_index self.now.octets self.now.place) }
    {
        self.octets.get(self.at).copied()
    }

    /// How many octets the whole list has, taken or not.
    pub fn length(&self) -> usize
        ensures { result ≡ length self.now.octets }
    {
        self.octets.len()
    }

    /// How many octets have been taken, which is the place of the next one.
    pub fn place(&self) -> usize
        ensures value { result ≡ self.now.place }
        ensures within { self.now.place ≤ length self.now.octets }
    {
        self.at
    }
}
