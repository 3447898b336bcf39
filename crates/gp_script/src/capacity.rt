//! What one line of a capture can hold.

ghost use Rattle.std.specs.Prelude.{◌≡◌, ◌≤◌, length};

use arrayvec::ArrayVec;
use std::marker::Model;

/// A list of at most 512 octets, as many as a line of 1,024 hexadecimal digits names. It lies in place and
/// takes no memory.
#[derive(Clone, PartialEq, Eq, Debug, Drop)]
pub struct Capacity {
    items: ArrayVec<u8, 512>,
}

impl Model for Capacity {
    ghost use Rattle.std.specs.Prelude.{List, ℕ};

    ghost Value = { List ℕ };

    ghost view = { λ c. c.items.items };

    ghost inverse = { λ xs. record { items = record { items = xs } } };
}

impl Capacity {
    // The list of these octets.
    pub(crate) fn of(octets: &[u8]) -> Capacity
        requires { length octets.now ≤ 512 }
        ensures { result ≡ octets.now }
    {
        match ArrayVec::try_from(octets) {
            Ok(items) => Capacity { items },
            Err(_) => unreachable!(),
        }
    }

    /// The octets, first to last.
    pub fn as_slice(&self) -> &[u8]
        ensures value { result.now ≡ self.now }
        ensures within { length result.now ≤ 512 }
    {
        self.items.as_slice()
    }
}
