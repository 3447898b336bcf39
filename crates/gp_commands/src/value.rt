//! The table from the type of an attribute's value to its size.

ghost use Rattle.std.specs.Prelude.{◌≡◌, IsTrue};
ghost use Rattle.gp_commands.specs.Values.{size_in, size_by, has_kind};

use std::marker::Model;

/// How many octets a value has.
#[derive(Clone, Copy, Debug, PartialEq, Eq)]
pub(crate) enum ValueSize {
    /// One octet for the first type of the line, and one more for each type after it.
    Rising,
    /// So many octets.
    Fixed(u8),
    /// A length octet, and so many octets; none where the length is FF.
    Counted,
}

/// Types from the first to the last, whose values have one rule for their size.
#[derive(Debug, Drop)]
pub(crate) struct ValueLine {
    pub first: u8,
    pub last: u8,
    pub size: ValueSize,
}

impl Model for ValueLine {
    ghost use Rattle.gp_commands.specs.Values.{ValueLine as Told};

    ghost Value = { Told };

    ghost view = { λ l. record { first = l.first; last = l.last; size = l.size } };
}

impl ValueLine {
    /// Whether a type stands in the line.
    fn has(&self, kind: u8) -> bool
        ensures { result ≡ has_kind self.now kind }
    {
        self.first <= kind && kind <= self.last
    }

    /// The size of a value of a type in the line.
    fn size_of(&self, kind: u8, first: u8) -> usize
        requires { IsTrue (has_kind self.now kind) }
        ensures { result ≡ size_by self.now kind first }
    {
        match self.size {
            ValueSize::Rising => (kind - self.first) as usize + 1,
            ValueSize::Fixed(octets) => octets as usize,
            ValueSize::Counted => 1 + text_length(first),
        }
    }
}

/// The table of types.
pub(crate) const VALUES: [ValueLine; 13] = [
    // general data of 8 to 64 bits
    ValueLine {
        first: 0x08,
        last: 0x0F,
        size: ValueSize::Rising,
    },
    // boolean
    ValueLine {
        first: 0x10,
        last: 0x10,
        size: ValueSize::Fixed(1),
    },
    // bitmaps of 8 to 64 bits
    ValueLine {
        first: 0x18,
        last: 0x1F,
        size: ValueSize::Rising,
    },
    // unsigned integers of 8 to 64 bits
    ValueLine {
        first: 0x20,
        last: 0x27,
        size: ValueSize::Rising,
    },
    // signed integers of 8 to 64 bits
    ValueLine {
        first: 0x28,
        last: 0x2F,
        size: ValueSize::Rising,
    },
    // enumerations of 8 and 16 bits
    ValueLine {
        first: 0x30,
        last: 0x31,
        size: ValueSize::Rising,
    },
    // semi-precision, single and double precision, carried as octets
    ValueLine {
        first: 0x38,
        last: 0x38,
        size: ValueSize::Fixed(2),
    },
    ValueLine {
        first: 0x39,
        last: 0x39,
        size: ValueSize::Fixed(4),
    },
    ValueLine {
        first: 0x3A,
        last: 0x3A,
        size: ValueSize::Fixed(8),
    },
    // octet string, character string
    ValueLine {
        first: 0x41,
        last: 0x42,
        size: ValueSize::Counted,
    },
    // time of day, date, UTC time
    ValueLine {
        first: 0xE0,
        last: 0xE2,
        size: ValueSize::Fixed(4),
    },
    // cluster identifier, attribute identifier
    ValueLine {
        first: 0xE8,
        last: 0xE9,
        size: ValueSize::Fixed(2),
    },
    // IEEE address
    ValueLine {
        first: 0xF0,
        last: 0xF0,
        size: ValueSize::Fixed(8),
    },
];

/// The size of a value of this type, whose first octet is `first`. It is `None` for a type outside the table.
#[tactic(auto, unfolding(crate::specs::Values::value_size, crate::specs::Values::value_types))]
pub(crate) fn value_size(kind: u8, first: u8) -> Option<usize>
    ensures { result ≡ Rattle.gp_commands.specs.Values.value_size kind first }
{
    size_among(&VALUES, kind, first)
}

/// The size that the first line which has the type gives.
fn size_among(lines: &[ValueLine], kind: u8, first: u8) -> Option<usize>
    ensures { result ≡ size_in lines.now kind first }
{
    for line in lines {
        if line.has(kind) {
            return Some(line.size_of(kind, first));
        }
    }
    None
}

/// How many octets follow the length octet of a text: none where it is FF, which stands for no text at all.
fn text_length(length: u8) -> usize
    ensures { result ≡ Rattle.gp_commands.specs.Values.text_length length }
{
    if length == 0xFF { 0 } else { length as usize }
}
