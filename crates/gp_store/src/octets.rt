//! A slot as it was read.
ghost use Rattle.std.specs.Prelude.{◌≡◌, length};

use arrayvec::ArrayVec;

/// A slot as it was read.
#[derive(Debug, Drop)]
pub struct ReadSlot {
    /// Its gate is open.
    pub is_open: bool,
    /// The octets behind the gate.
    pub octets: ArrayVec<u8, 63>,
    ghost size: { length octets.items ≡ 63 },
}
