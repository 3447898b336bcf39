//! Values that are one word each.

ghost use Rattle.std.specs.Prelude.{◌≡◌, List, ℕ};
ghost use Rattle.gp_script.specs.Kinds.{among_in};

/// A value that is one word of a line.
pub(crate) trait Spelled: Copy {
    /// Its text.
    ghost spelling: { Self → List ℕ };

    /// Its text.
    fn text(self) -> &'static str
        ensures { result.now ≡ spelling self };
}

/// The value among these whose text the word is.
pub(crate) fn among<T: Spelled>(word: &[u8], values: &[T]) -> Option<T>
    ensures { result ≡ among_in values.now T.spelling word.now }
{
    for value in values {
        if word == value.text().as_bytes() {
            return Some(*value);
        }
    }
    None
}
