//! What a sink tells proxies of its pairings.
ghost use Rattle.std.specs.Prelude.{◌≡◌, ◌<◌, ◌^◌};
ghost use Rattle.gp_ideal.specs.Messages as words;
ghost use Rattle.gp_sink.specs.Sink.{IsMessage};
ghost use Rattle.gp_sink.specs.Inside.{AreWide};

use gp_base::{Mode, Src};
use gp_cluster::{Cluster, Dest, Pairing, Sent};
use gp_ideal::{Config, Values};

// The sink, where frames are unicast to it.
fn sink_named(mode: Mode, config: &Config) -> Option<(u64, u16)>
    ensures { result ≡ words.sink_named mode config.now }
{
    match mode {
        Mode::Derived | Mode::Commissioned => None,
        Mode::Unicast => Some((config.ieee, config.address)),
    }
}

// The group, where frames are groupcast to it.
fn group_named(mode: Mode, group: u16) -> Option<u16>
    ensures { result ≡ words.group_named mode group }
{
    match mode {
        Mode::Derived | Mode::Commissioned => Some(group),
        Mode::Unicast => None,
    }
}

/// The message that a device is paired, with this floor (Zigbee PRO Green Power, A.3.3.5.2, GP Pairing).
pub fn pairing_sent(config: &Config, values: &Values, floor: u32) -> Sent
    ensures value { result ≡ words.pairing_sent config.now values.now floor }
    ensures message { IsMessage result }
{
    pairing_of(*config, *values, floor)
}

// The same, of values that fit their fields.
fn pairing_of(config: Config, values: Values, floor: u32) -> Sent
    ensures value { result ≡ words.pairing_sent config values floor }
    ensures wide { AreWide config values floor }
{
    let options = 0x08
        + 0x20 * u32::from(values.mode.number())
        + 0x200 * u32::from(values.level.number())
        + 0x800 * u32::from(values.kind.number())
        + 0x4000
        + 0x8000;
    let pairing = Pairing {
        options,
        src: values.src,
        sink: sink_named(values.mode, &config),
        group: group_named(values.mode, values.group),
        device: Some(values.device),
        counter: Some(floor),
        key: Some(values.key),
        alias: None,
        radius: None,
    };
    Sent {
        to: Dest::All,
        body: Cluster::Pairing(pairing),
    }
}

/// The message that a device is unpaired (Zigbee PRO Green Power, A.3.3.5.2, GP Pairing with RemoveGPD).
pub fn removal_sent(source: Src) -> Sent
    ensures value { result ≡ words.removal_sent source }
    ensures message { IsMessage result }
{
    removal_of(source)
}

// The same, of a SrcID that fits its field.
fn removal_of(source: Src) -> Sent
    ensures value { result ≡ words.removal_sent source }
    ensures wide { source.0 < 2 ^ 32 }
{
    let pairing = Pairing {
        options: 0x10,
        src: source,
        sink: None,
        group: None,
        device: None,
        counter: None,
        key: None,
        alias: None,
        radius: None,
    };
    Sent {
        to: Dest::All,
        body: Cluster::Pairing(pairing),
    }
}
