//! Where things stand on the disk.
ghost use Rattle.std.specs.Prelude.{◌≡◌, ◌<◌, ◌≤◌, ◌+◌};
ghost use Rattle.gp_rows.specs.Rows.{CAPACITY};
ghost use Rattle.gp_store.specs.Slots.{slot_number};
ghost use Rattle.gp_store.specs.Image.{gate_at, format_1};

/// An open gate. A gate with any other value is closed.
pub const OPEN: u8 = 0xA5;

/// The octets of an image.
pub const SIZE: u64 = 204_800;

/// The most rows that there are.
pub use gp_rows::ROWS;

/// One of the two slots of a row: the one of the even or the one of the odd number.
#[derive(Clone, Copy, Debug, PartialEq, Eq)]
pub struct Slot {
    pub row: u16,
    pub odd: bool,
}

impl Slot {
    /// Its number.
    pub fn number(self) -> u32
        ensures { result ≡ slot_number self.row self.odd }
    {
        if self.odd {
            2 * u32::from(self.row) + 1
        } else {
            2 * u32::from(self.row)
        }
    }

    /// The place of its gate.
    pub fn gate(self) -> u64
        requires { self.row < CAPACITY }
        ensures place { result ≡ gate_at format_1 self.row self.odd }
        ensures first { 4096 ≤ result }
        ensures within { result + 64 ≤ 135168 }
    {
        4096 + 64 * u64::from(self.number())
    }
}
