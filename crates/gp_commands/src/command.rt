//! Commands as values, and why octets are no command.

ghost use Rattle.std.specs.Prelude.{◌≡◌, ◌≤◌, length};

use gp_base::{Key, Octets};

/// A command of a device, or one to a device. `rest` has the octets after its last field.
#[derive(Clone, Debug, PartialEq, Eq, Drop)]
pub enum GpdCommand {
    /// A command without a payload (Zigbee PRO Green Power, A.4.1).
    Plain {
        id: u8,
        rest: Octets,
    },
    /// Move Up or Move Down, with On/Off or without (A.4.2, level control). The rate is in units a second, and
    /// without it nothing follows.
    Move {
        id: u8,
        rate: Option<u8>,
        rest: Octets,
    },
    /// Step Up or Step Down, with On/Off or without (A.4.2, level control). The size is in units and the time in
    /// tenths of a second. Without a time at most one octet follows.
    Step {
        id: u8,
        size: u8,
        time: Option<u16>,
        rest: Octets,
    },
    /// Press or release of keys that a vector of eight bits names (A.4.2, 8-bit vector commands).
    Vector {
        id: u8,
        value: u8,
        rest: Octets,
    },
    /// An attribute report (A.4.2, attribute reporting): a cluster, and entries of an attribute, a type and a
    /// value to the end, as they stand.
    Report {
        cluster: u16,
        records: Octets,
    },
    /// How a device asks to be paired (A.4.2.1.1).
    Commissioning(Commissioning),
    /// How a sink answers it (A.4.2, Commissioning Reply).
    Reply(Reply),
    /// The channels on which a device will listen next (A.4.2, Channel Request): bits 0 to 3 the next one minus
    /// 11, bits 4 to 7 the one after it.
    ChannelRequest {
        value: u8,
        rest: Octets,
    },
    /// The channel to operate on (A.4.2, Channel Configuration): bits 0 to 3 the channel minus 11, bit 4 Basic.
    ChannelConfig {
        value: u8,
        rest: Octets,
    },
    /// Any other identifier, with the octets after it.
    Other {
        id: u8,
        rest: Octets,
    },
}

/// A Commissioning command (Zigbee PRO Green Power, A.4.2.1.1). Each field that may be absent is there exactly where
/// a flag says so.
#[derive(Clone, Debug, PartialEq, Eq, Drop)]
pub struct Commissioning {
    /// The DeviceID.
    pub device: u8,
    /// Bit 0 MAC sequence number capability, 1 RxOn capability, 2 application information present, 4 PANId request,
    /// 5 security key request, 6 fixed location, 7 extended options present.
    pub options: u8,
    /// Bits 0 and 1 the security level, 2 to 4 the key type, 5 key present, 6 key encrypted, 7 counter present.
    pub extended: Option<u8>,
    /// The device's key, in the order in which it is sent.
    pub key: Option<Key>,
    /// The MIC of an encrypted key.
    pub key_mic: Option<[u8; 4]>,
    /// The device's outgoing frame counter.
    pub counter: Option<u32>,
    /// Bit 0 manufacturer present, 1 model present, 2 list of commands present, 3 list of clusters present.
    pub application: Option<u8>,
    /// The manufacturer's identifier.
    pub manufacturer: Option<u16>,
    /// The model's identifier.
    pub model: Option<u16>,
    /// The identifiers of the commands, without their count.
    pub commands: Option<Octets>,
    /// The clusters with their first octet, which has the number of server clusters in its bits 0 to 3 and that of
    /// client clusters in its bits 4 to 7; then two octets for each.
    pub clusters: Option<Octets>,
    /// What follows.
    pub rest: Octets,
}

/// A Commissioning Reply command (Zigbee PRO Green Power, A.4.2, Commissioning Reply). Each field that may be absent
/// is there exactly where a flag says so.
#[derive(Clone, Debug, PartialEq, Eq, Drop)]
pub struct Reply {
    /// Bit 0 PANId present, 1 key present, 2 key encrypted, 3 and 4 the security level, 5 to 7 the key type.
    pub options: u8,
    /// The PANId to operate in.
    pub pan: Option<u16>,
    /// The key, in the order in which it is sent.
    pub key: Option<Key>,
    /// The MIC of an encrypted key.
    pub key_mic: Option<[u8; 4]>,
    /// The counter with which the key was encrypted.
    pub counter: Option<u32>,
    /// What follows.
    pub rest: Octets,
}

/// Why octets are no command: the first fault from the left.
#[derive(Clone, Copy, Debug, PartialEq, Eq)]
pub enum CommandReason {
    /// There is no identifier.
    Empty,
    /// A field passes the end. The place is the number of octets.
    Short { place: u8 },
    /// A value in a report has a type outside the table of sizes. The place is that of the type octet.
    ValueKind { place: u8 },
    /// The security level is 1, in the extended options of a Commissioning or the options of a Reply.
    ReservedLevel,
    /// The key type there is 5 or 6.
    ReservedKeyKind,
}

/// The fault of octets that end too early.
pub(crate) fn short(octets: &[u8]) -> CommandReason
    requires { length octets.now ≤ 127 }
    ensures { result ≡ CommandReason.Short (length octets.now) }
{
    CommandReason::Short {
        place: octets.len() as u8,
    }
}
