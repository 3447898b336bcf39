//! Names of nodes.

ghost use Rattle.std.specs.Prelude.{◌≡◌, None, Some, codes, length, if◌then◌else◌};
ghost use Rattle.gp_script.specs.Kinds as spec;

use arrayvec::ArrayVec;
use std::marker::Model;

/// The name of a node: a letter a to z and up to seven more of a to z and 0 to 9. A contract sees its octets.
#[derive(Clone, PartialEq, Eq, Debug, Drop)]
pub struct Name {
    letters: ArrayVec<u8, 8>,
}

impl Model for Name {
    ghost use Rattle.std.specs.Prelude.{List, ℕ};

    ghost Value = { List ℕ };

    ghost view = { λ n. n.letters.items };

    ghost inverse = { λ xs. record { letters = record { items = xs } } };
}

impl Name {
    /// The name that a word is, where it is one.
    #[tactic(auto, unfolding(crate::specs::Kinds::is_name))]
    pub(crate) fn of(word: &[u8]) -> Option<Name>
        ensures { result ≡ (if spec.is_name word.now then Some word.now else None) }
    {
        let [first, others @ ..] = word else {
            return None;
        };
        if !first.is_ascii_lowercase() {
            return None;
        }
        if others.len() > 7 {
            return None;
        }
        if !are_name_letters(others) {
            return None;
        }
        match ArrayVec::try_from(word) {
            Ok(letters) => Some(Name { letters }),
            Err(_) => None,
        }
    }

    /// The name of a sink that lives by itself: `sink`.
    pub fn own() -> Name
        ensures { result ≡ codes "sink" }
    {
        match ArrayVec::try_from(b"sink".as_slice()) {
            Ok(letters) => Name { letters },
            Err(_) => unreachable!(),
        }
    }

    /// Another name of the same octets. Unlike `clone` it has no failure to answer.
    pub fn copy(&self) -> Name
        ensures { result ≡ self.now }
    {
        match ArrayVec::try_from(self.letters.as_slice()) {
            Ok(letters) => Name { letters },
            Err(_) => unreachable!(),
        }
    }

    /// The octets, first to last.
    pub fn as_slice(&self) -> &[u8]
        ensures { result.now ≡ self.now }
    {
        self.letters.as_slice()
    }
}

// Whether all are of a to z and 0 to 9.
fn are_name_letters(letters: &[u8]) -> bool
    ensures { result ≡ spec.are_name_letters letters.now }
{
    for letter in letters {
        if !(letter.is_ascii_lowercase() || letter.is_ascii_digit()) {
            return false;
        }
    }
    true
}
