//! The words of a line.

ghost use Rattle.std.specs.Prelude.{◌≡◌, [], ◌∷◌, MatchOption};
ghost use Rattle.gp_script.specs.Words.{words};

use memchr::memchr;
use std::marker::Model;

/// A walk over the words of a line, from the first on. A contract sees the words that are left.
#[derive(Drop)]
pub(crate) struct Words<'a> {
    rest: Option<&'a [u8]>,
}

impl<'a> Model for Words<'a> {
    ghost use Rattle.std.specs.Prelude.{List, ℕ};
    ghost use Rattle.gp_script.specs.Words.{words_left};

    ghost Value = { List (List ℕ) };

    ghost view = { λ w. words_left (λ rest. rest.now) w.rest };
}

impl<'a> Words<'a> {
    /// A walk before the first word of this line.
    pub(crate) fn of(line: &'a [u8]) -> Words<'a>
        ensures { result ≡ words line.now }
    {
        Words { rest: Some(line) }
    }

    /// Takes the next word. It is `None` exactly where none is left.
    pub(crate) fn next(&mut self) -> Option<&'a [u8]>
        ensures { MatchOption result ((self.old ≡ []) × (self.new ≡ [])) (λ word. self.old ≡ word.now ∷ self.new) }
    {
        let rest = self.rest?;
        match memchr(b' ', rest) {
            Some(end) => {
                let (word, others) = rest.split_at(end);
                self.rest = Some(&others[1..]);
                Some(word)
            }
            None => {
                self.rest = None;
                Some(rest)
            }
        }
    }

    /// Whether no word is left.
    pub(crate) fn is_done(&self) -> bool
        ensures { result ≡ Rattle.gp_script.specs.Words.is_done self.now }
    {
        self.rest.is_none()
    }
}
