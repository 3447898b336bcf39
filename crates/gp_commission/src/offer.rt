//! What a device asks for, and why it isn't paired.

use gp_base::{Key, KeyKind, Level, Octets, Src};

/// What a device offers to be paired with (Zigbee PRO Green Power, A.4.2.1.1, GPD Commissioning).
#[derive(Clone, Copy, Debug, PartialEq, Eq)]
pub struct Offer {
    /// The device.
    pub src: Src,
    /// The key under which its frames will be secured.
    pub key: Key,
    /// The kind of that key.
    pub kind: KeyKind,
    /// The security level.
    pub level: Level,
    /// The DeviceID.
    pub device: u8,
    /// The counter that it last used.
    pub counter: u32,
}

/// What comes of a commissioning command that isn't refused.
#[derive(Clone, Debug, PartialEq, Eq, Drop)]
pub enum Offered {
    /// The device is to be paired.
    Pair(Offer),
    /// The device waits for a reply, and is paired once it says that it has it.
    Candidate {
        /// What it will be paired with.
        offer: Offer,
        /// The octets of the Commissioning Reply, its identifier first.
        reply: Octets,
    },
}

/// Why a device isn't paired: the first that applies.
#[derive(Clone, Copy, Debug, PartialEq, Eq)]
pub enum OfferReason {
    /// The sink isn't listening.
    NotListening,
    /// The SrcID isn't one that can be paired: 0x00000001 to 0xFFFFFFF8.
    BadSource,
    /// The security level is below 2, or none is said.
    LevelLow,
    /// There is no key, or its kind says that there is none.
    NoKey,
    /// The MIC of the wrapped key isn't right.
    KeyTag,
    /// The counter is the greatest there is, so no frame could follow.
    CounterEnd,
}
