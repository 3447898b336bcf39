//! The changes of what a sink remembers.

use gp_base::{Key, KeyKind, Level, Mode, Src};

/// What is paired: the values of a row of the pairing table (Zigbee PRO Green Power, A.3.3.2.2).
#[derive(Clone, Copy, Debug, PartialEq, Eq)]
pub struct Values {
    /// The device.
    pub src: Src,
    /// Its key.
    pub key: Key,
    /// The kind of that key.
    pub kind: KeyKind,
    /// The security level.
    pub level: Level,
    /// How its frames are to be tunnelled.
    pub mode: Mode,
    /// The group that they are tunnelled to, or 0.
    pub group: u16,
    /// The DeviceID.
    pub device: u8,
}

/// One change of what a sink remembers.
#[derive(Clone, Copy, Debug, PartialEq, Eq)]
pub enum Change {
    /// A device is paired, with this counter.
    Pair {
        /// What is paired.
        values: Values,
        /// The counter.
        counter: u32,
    },
    /// A frame of a row is accepted.
    Accept {
        /// The number of the row.
        row: u16,
        /// The frame's counter.
        counter: u32,
    },
    /// A row is unpaired by a frame.
    Retire {
        /// The number of the row.
        row: u16,
        /// The frame's counter.
        counter: u32,
    },
}

/// What is known of the current pairing of a SrcID.
#[derive(Clone, Copy, Debug, PartialEq, Eq)]
pub struct Known {
    /// The number of the row.
    pub row: u16,
    /// Its values.
    pub values: Values,
    /// Its floor: the greatest counter that was taken.
    pub floor: u32,
}
