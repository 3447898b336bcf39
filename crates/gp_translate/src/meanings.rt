//! What commands mean in the terms of the ZCL.

ghost use Rattle.std.specs.Prelude.{◌≡◌, ◌≤◌, length};
ghost use Rattle.gp_translate.specs.Meanings as words;

use crate::act::Act;
use gp_base::Octets;
use gp_commands::GpdCommand;

/// The clusters: Identify, Scenes, On/Off, Level Control and Door Lock.
const IDENTIFY: u16 = 0x0003;

const SCENES: u16 = 0x0005;

const ON_OFF: u16 = 0x0006;

const LEVEL_CONTROL: u16 = 0x0008;

const DOOR_LOCK: u16 = 0x0101;

/// The general command Report Attributes.
const REPORT_ATTRIBUTES: u8 = 0x0A;

/// The identifiers of the commands that have a meaning.
pub(crate) const IDENTIFIERS: [u8; 32] = [
    // Identify
    0x00,
    // Recall Scene 0 to 7
    0x10, 0x11, 0x12, 0x13, 0x14, 0x15, 0x16, 0x17,
    // Store Scene 0 to 7
    0x18, 0x19, 0x1A, 0x1B, 0x1C, 0x1D, 0x1E, 0x1F,
    // Off, On, Toggle
    0x20, 0x21, 0x22,
    // Move Up, Move Down
    0x30, 0x31,
    // Step Up, Step Down
    0x32, 0x33,
    // Level Stop
    0x34,
    // Move Up, Move Down, with On/Off
    0x35, 0x36,
    // Step Up, Step Down, with On/Off
    0x37, 0x38,
    // Lock Door, Unlock Door
    0x50, 0x51,
    // attribute report
    0xA0,
];

/// Whether commands with this identifier have a meaning.
#[tactic(auto, unfolding(crate::specs::Meanings::has_meaning, crate::specs::Meanings::identifiers))]
pub(crate) fn has_meaning(id: u8) -> bool
    ensures { result ≡ words.has_meaning id }
{
    IDENTIFIERS.iter().any(|other| *other == id)
}

/// A command of a cluster.
pub(crate) fn of_cluster(endpoint: u8, cluster: u16, zcl: u8, payload: &[u8]) -> Act
    requires { length payload.now ≤ 127 }
    ensures { result ≡ words.of_cluster endpoint cluster zcl payload.now }
{
    match Octets::of(payload) {
        Some(payload) => Act {
            endpoint,
            cluster,
            general: false,
            zcl,
            payload,
        },
        None => unreachable!(),
    }
}

/// The meaning of a command without a payload.
#[tactic(auto, unfolding(crate::specs::Meanings::plain))]
fn plain(endpoint: u8, id: u8) -> Option<Act>
    ensures { result ≡ words.plain endpoint id }
{
    match id {
        0x00 => Some(of_cluster(endpoint, IDENTIFY, 0x00, &[0x3C, 0x00])),
        0x10..=0x17 => Some(of_cluster(endpoint, SCENES, 0x05, &[0x00, 0x00, id - 0x10])),
        0x18..=0x1F => Some(of_cluster(endpoint, SCENES, 0x04, &[0x00, 0x00, id - 0x18])),
        0x20..=0x22 => Some(of_cluster(endpoint, ON_OFF, id - 0x20, &[])),
        0x34 => Some(of_cluster(endpoint, LEVEL_CONTROL, 0x03, &[])),
        0x50..=0x51 => Some(of_cluster(endpoint, DOOR_LOCK, id - 0x50, &[])),
        _ => None,
    }
}

/// The meaning of a Move.
#[tactic(auto, unfolding(crate::specs::Meanings::moved))]
fn moved(endpoint: u8, id: u8, rate: Option<u8>) -> Option<Act>
    ensures { result ≡ words.moved endpoint id rate }
{
    let rate = rate.unwrap_or(0xFF);
    match id {
        0x30..=0x31 => Some(of_cluster(endpoint, LEVEL_CONTROL, 0x01, &[id - 0x30, rate])),
        0x35..=0x36 => Some(of_cluster(endpoint, LEVEL_CONTROL, 0x05, &[id - 0x35, rate])),
        _ => None,
    }
}

/// The meaning of a Step.
#[tactic(auto, unfolding(crate::specs::Meanings::stepped))]
fn stepped(endpoint: u8, id: u8, size: u8, time: Option<u16>) -> Option<Act>
    ensures { result ≡ words.stepped endpoint id size time }
{
    let [low, high] = time.unwrap_or(0xFFFF).to_le_bytes();
    match id {
        0x32..=0x33 => Some(of_cluster(
            endpoint,
            LEVEL_CONTROL,
            0x02,
            &[id - 0x32, size, low, high],
        )),
        0x37..=0x38 => Some(of_cluster(
            endpoint,
            LEVEL_CONTROL,
            0x06,
            &[id - 0x37, size, low, high],
        )),
        _ => None,
    }
}

/// What a command means, at an endpoint.
#[tactic(auto, unfolding(crate::specs::Meanings::meaning))]
pub(crate) fn meaning(endpoint: u8, command: &GpdCommand) -> Option<Act>
    ensures { result ≡ words.meaning endpoint command.now }
{
    match command {
        GpdCommand::Plain { id, .. } => plain(endpoint, *id),
        GpdCommand::Move { id, rate, .. } => moved(endpoint, *id, *rate),
        GpdCommand::Step { id, size, time, .. } => stepped(endpoint, *id, *size, *time),
        GpdCommand::Report { cluster, records } => Some(Act {
            endpoint,
            cluster: *cluster,
            general: true,
            zcl: REPORT_ATTRIBUTES,
            payload: records.copy(),
        }),
        _ => None,
    }
}
