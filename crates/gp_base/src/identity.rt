//! The identifiers of Green Power: devices, keys, levels, kinds of key and modes of tunnelling.

ghost use Rattle.std.specs.Prelude.{◌≡◌, ◌≤◌, ◌↔◌, length, IsTrue, MatchOption};
ghost use Rattle.gp_base.specs.Identity.{is_individual, derived_group_of, kind_number, level_number, mode_number};
ghost use Rattle.gp_base.specs.declared.identity.KeyKind.{KeyKind as Kind};
ghost use Rattle.gp_base.specs.declared.identity.Level.{Level as SecurityLevel};
ghost use Rattle.gp_base.specs.declared.identity.Mode.{Mode as TunnelMode};

use std::fmt;

/// A SrcID, the number of a device under ApplicationID 0b000 (Zigbee PRO Green Power, A.1.4.1.4).
#[derive(Clone, Copy, PartialEq, Eq, Debug)]
pub struct Src(pub u32);

impl Src {
    /// Whether a device may be paired under it: exactly from 0x00000001 to 0xFFFFFFF8.
    pub fn pairable(self) -> bool
        ensures { IsTrue result ↔ ((1 ≤ self.0) × (self.0 ≤ 0xFFFFFFF8)) }
    {
        1 <= self.0 && self.0 <= 0xFFFF_FFF8
    }
}

/// An AES-128 key, in the order in which it is sent. Printed by `Debug` it shows none of its octets.
#[derive(Clone, Copy, PartialEq, Eq)]
pub struct Key(pub [u8; 16]);

impl Key {
    /// The key of these sixteen octets.
    pub fn of(octets: &[u8]) -> Key
        requires { length octets.now ≡ 16 }
        ensures { result.0 ≡ octets.now }
    {
        let mut key = [0; 16];
        key.copy_from_slice(octets);
        Key(key)
    }
}

impl fmt::Debug for Key {
    fn fmt<W: fmt::Write>(&self, f: &mut fmt::Formatter<W>) -> fmt::Result {
        f.write_str("Key(..)")
    }
}

/// The security level of a frame or a pairing (Zigbee PRO Green Power, A.1.4.1.3): a frame counter and
/// a MIC of four octets, and at level three encryption besides.
#[derive(Clone, Copy, PartialEq, Eq, Debug)]
pub enum Level {
    /// Level 0b10: the frame is authenticated.
    Two,
    /// Level 0b11: the frame is authenticated and encrypted.
    Three,
}

impl Level {
    /// The number of the level: 2 or 3.
    pub fn number(self) -> u8
        ensures { result ≡ level_number self }
    {
        match self {
            Level::Two => 2,
            Level::Three => 3,
        }
    }

    /// The level with this number, and `None` exactly where no level has it.
    pub fn of_number(number: u8) -> Option<Level>
        ensures { MatchOption result ((level : SecurityLevel) → level_number level ≡ number → ⊥) (λ level. level_number level ≡ number) }
    {
        match number {
            2 => Some(Level::Two),
            3 => Some(Level::Three),
            _ => None,
        }
    }
}

/// The kind of a device's key, with its number (Zigbee PRO Green Power, A.3.7.1.2).
#[derive(Clone, Copy, PartialEq, Eq, Debug)]
pub enum KeyKind {
    /// The Zigbee network key.
    Nwk = 1,
    /// A key that all devices of a group share.
    Group = 2,
    /// A group key that is derived from the network key.
    DerivedGroup = 3,
    /// A key of one device, which it brings with it.
    OutOfBox = 4,
    /// A key of one device, derived from the group key.
    DerivedIndividual = 7,
}

impl KeyKind {
    /// The number of the kind.
    pub fn number(self) -> u8
        ensures { result ≡ kind_number self }
    {
        self as u8
    }

    /// The kind with this number, and `None` exactly where no kind has it.
    pub fn of_number(number: u8) -> Option<KeyKind>
        ensures { MatchOption result ((kind : Kind) → kind_number kind ≡ number → ⊥) (λ kind. kind_number kind ≡ number) }
    {
        match number {
            1 => Some(KeyKind::Nwk),
            2 => Some(KeyKind::Group),
            3 => Some(KeyKind::DerivedGroup),
            4 => Some(KeyKind::OutOfBox),
            7 => Some(KeyKind::DerivedIndividual),
            _ => None,
        }
    }

    /// Whether one device alone has the key: exactly for the numbers 4 and 7.
    pub fn individual(self) -> bool
        ensures { result ≡ is_individual self }
    {
        match self {
            KeyKind::Nwk => false,
            KeyKind::Group => false,
            KeyKind::DerivedGroup => false,
            KeyKind::OutOfBox => true,
            KeyKind::DerivedIndividual => true,
        }
    }
}

/// How a sink wants frames tunnelled, with its number (Zigbee PRO Green Power, A.3.3.2.2).
#[derive(Clone, Copy, PartialEq, Eq, Debug)]
pub enum Mode {
    /// Groupcast to the group that is derived from the SrcID.
    Derived = 1,
    /// Groupcast to a group that was commissioned.
    Commissioned = 2,
    /// Lightweight unicast to the sink.
    Unicast = 3,
}

impl Mode {
    /// The number of the mode.
    pub fn number(self) -> u8
        ensures { result ≡ mode_number self }
    {
        self as u8
    }

    /// The mode with this number, and `None` exactly where no mode has it.
    pub fn of_number(number: u8) -> Option<Mode>
        ensures { MatchOption result ((mode : TunnelMode) → mode_number mode ≡ number → ⊥) (λ mode. mode_number mode ≡ number) }
    {
        match number {
            1 => Some(Mode::Derived),
            2 => Some(Mode::Commissioned),
            3 => Some(Mode::Unicast),
            _ => None,
        }
    }
}

/// The group that is derived from a SrcID (Zigbee PRO Green Power, A.3.6.1.2.1): its low half where that is from 0x0001
/// to 0xFFF7, and else the low half xor the high one where that is. Else it is 7 for a low half of 0, and for another the
/// low half minus 8.
pub fn derived_group(source: Src) -> u16
    ensures { result ≡ derived_group_of source.0 }
{
    let low = (source.0 % 65536) as u16;
    let high = (source.0 / 65536) as u16;
    let mixed = low ^ high;
    if is_group(low) {
        low
    } else if is_group(mixed) {
        mixed
    } else if low == 0 {
        7
    } else {
        low - 8
    }
}

// Whether a number is that of a group: from 0x0001 to 0xFFF7.
fn is_group(address: u16) -> bool
    ensures { result ≡ Rattle.gp_base.specs.Identity.is_group address }
{
    1 <= address && address <= 0xFFF7
}
