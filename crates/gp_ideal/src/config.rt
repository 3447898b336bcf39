//! How a sink is set up.

use gp_base::{Key, Mode};

/// How a sink is set up.
#[derive(Clone, Copy, Debug, PartialEq, Eq)]
pub struct Config {
    /// Its network address.
    pub address: u16,
    /// Its IEEE address.
    pub ieee: u64,
    /// How it asks for the frames of its devices.
    pub mode: Mode,
    /// The group that it asks for in the mode `Commissioned`, and else 0.
    pub group: u16,
    /// Its channel, from 11 to 26.
    pub channel: u8,
    /// The link key, under which keys are wrapped.
    pub link: Key,
    /// The key that it gives to devices which ask for one.
    pub shared: Key,
}
