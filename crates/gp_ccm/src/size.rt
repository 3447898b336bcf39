//! The size of a tag.
ghost use Rattle.std.specs.Prelude.{◌≡◌, ◌⊎◌, length};

/// How many octets a tag has (RFC 3610, M).
#[derive(Clone, Copy, PartialEq, Eq, Debug)]
pub enum TagSize {
    /// Four octets.
    Four,
    /// Eight octets.
    Eight,
}

impl TagSize {
    ghost use Rattle.gp_ccm.specs.Ccm.{octets_in};

    /// The size of this tag.
    pub(crate) fn of(tag: &[u8]) -> TagSize
        requires { (length tag.now ≡ 4) ⊎ (length tag.now ≡ 8) }
        ensures { octets_in result ≡ length tag.now }
    {
        if tag.len() == 4 {
            TagSize::Four
        } else {
            TagSize::Eight
        }
    }

    /// The number of octets.
    pub(crate) fn octets(self) -> usize
        ensures { result ≡ octets_in self }
    {
        match self {
            TagSize::Four => 4,
            TagSize::Eight => 8,
        }
    }
}
