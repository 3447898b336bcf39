//! Messages as values, where they go, and why octets are no message.

ghost use Rattle.std.specs.Prelude.{◌≡◌, ◌≤◌, length};

use gp_base::{Key, Octets, Src};

/// A command of the Green Power cluster behind its header (Zigbee Cluster Library, 2.4.1). The direction and the
/// command's number are those of the body.
#[derive(Clone, Debug, PartialEq, Eq, Drop)]
pub struct Zcl {
    /// Whether no default response is wanted.
    pub quiet: bool,
    /// The transaction's sequence number.
    pub sequence: u8,
    /// The message.
    pub body: Cluster,
}

/// A message between proxies and sinks (Zigbee PRO Green Power, A.3.3.4 and A.3.3.5).
#[derive(Clone, Debug, PartialEq, Eq, Drop)]
pub enum Cluster {
    /// GP Notification, from a proxy, command 0x00.
    Notification(Notification),
    /// GP Commissioning Notification, from a proxy, command 0x04.
    CommissioningNotice(CommissioningNotice),
    /// GP Pairing, from a sink, command 0x01.
    Pairing(Pairing),
    /// GP Proxy Commissioning Mode, from a sink, command 0x02.
    ProxyMode(ProxyMode),
    /// GP Response, from a sink, command 0x06.
    Response(Response),
}

/// A frame of a paired device, as a proxy tunnels it (Zigbee PRO Green Power, A.3.3.4, GP Notification).
#[derive(Clone, Debug, PartialEq, Eq, Drop)]
pub struct Notification {
    /// Bits 0 to 2 the ApplicationID, which is 0, 3 also unicast, 4 also derived group, 5 also commissioned group,
    /// 6 and 7 the security level, 8 to 10 the key type, 11 RxAfterTx, 12 queue full, 13 bidirectional, 14 proxy
    /// info present.
    pub options: u16,
    /// The device.
    pub src: Src,
    /// The frame's counter.
    pub counter: u32,
    /// The identifier of the device's command.
    pub command: u8,
    /// The command's payload. `None` is an unspecified octet string.
    pub payload: Option<Octets>,
    /// The proxy's address and how well it heard the device, there by bit 14 of the options.
    pub proxy: Option<(u16, u8)>,
}

/// A frame heard in commissioning mode, as a proxy tunnels it (Zigbee PRO Green Power, A.3.3.4, GP Commissioning
/// Notification).
#[derive(Clone, Debug, PartialEq, Eq, Drop)]
pub struct CommissioningNotice {
    /// Bits 0 to 2 the ApplicationID, which is 0, 3 RxAfterTx, 4 and 5 the security level, 6 to 8 the key type, 9
    /// security processing failed, 10 bidirectional, 11 proxy info present.
    pub options: u16,
    /// The device.
    pub src: Src,
    /// The frame's counter, and at level 0 its MAC sequence number.
    pub counter: u32,
    /// The identifier of the device's command, or the first octet of an encrypted one.
    pub command: u8,
    /// The octets after it. `None` is an unspecified octet string.
    pub payload: Option<Octets>,
    /// The proxy's address and how well it heard the device, there by bit 11 of the options.
    pub proxy: Option<(u16, u8)>,
    /// The MIC of the frame, there by bit 9 of the options.
    pub mic: Option<[u8; 4]>,
}

/// What proxies are to do for a device (Zigbee PRO Green Power, A.3.3.5, GP Pairing).
#[derive(Clone, Debug, PartialEq, Eq, Drop)]
pub struct Pairing {
    /// Three octets: bits 0 to 2 the ApplicationID, which is 0, 3 AddSink, 4 RemoveGPD, 5 and 6 the communication
    /// mode, 7 fixed, 8 MAC sequence number capability, 9 and 10 the security level, 11 to 13 the key type, 14
    /// counter present, 15 key present, 16 alias present, 17 radius present.
    pub options: u32,
    /// The device.
    pub src: Src,
    /// The sink's IEEE address and network address, there without RemoveGPD in mode 0b11.
    pub sink: Option<(u64, u16)>,
    /// The sink's group, there without RemoveGPD in modes 0b01 and 0b10.
    pub group: Option<u16>,
    /// The DeviceID, there by AddSink.
    pub device: Option<u8>,
    /// The device's counter.
    pub counter: Option<u32>,
    /// The device's key, in the order in which it is sent.
    pub key: Option<Key>,
    /// The alias that proxies use as source address.
    pub alias: Option<u16>,
    /// The radius of groupcasts.
    pub radius: Option<u8>,
}

/// Whether proxies are in commissioning mode (Zigbee PRO Green Power, A.3.3.5, GP Proxy Commissioning Mode).
#[derive(Clone, Debug, PartialEq, Eq, Drop)]
pub struct ProxyMode {
    /// Bit 0 the action, 1 window present, 2 exit on first pairing, 3 exit on command, 4 channel present, 5 unicast.
    pub options: u8,
    /// The length of the window in seconds.
    pub window: Option<u16>,
    /// The channel to listen on.
    pub channel: Option<u8>,
}

/// A frame that a proxy is to send to a device (Zigbee PRO Green Power, A.3.3.5, GP Response).
#[derive(Clone, Debug, PartialEq, Eq, Drop)]
pub struct Response {
    /// Bits 0 to 2 the ApplicationID, which is 0.
    pub options: u8,
    /// The address of the temporary master, the one proxy that sends it.
    pub master: u16,
    /// The channel to send on, minus 11, in bits 0 to 3.
    pub channel: u8,
    /// The device.
    pub src: Src,
    /// The identifier of the command to the device.
    pub command: u8,
    /// The command's payload. `None` is an unspecified octet string.
    pub payload: Option<Octets>,
}

/// Why octets are no message: the first fault from the left, with its place.
#[derive(Clone, Copy, Debug, PartialEq, Eq)]
pub enum ClusterReason {
    /// An octet is missing at this place, which is the length of the input.
    Short { place: u8 },
    /// The control octet isn't that of a cluster's own command without manufacturer code: bits 0 and 1 aren't 01,
    /// or bit 2 or one of bits 5 to 7 is set. The place is 0.
    HeaderForm { place: u8 },
    /// Direction and number are none of the five messages'. The place is 2.
    CommandUnknown { place: u8 },
    /// The ApplicationID in the options isn't 0. The place is that of the options, 3.
    AppId { place: u8 },
    /// An octet is left after the last field, the first of them at this place.
    Trailing { place: u8 },
    /// A Pairing without RemoveGPD has the communication mode 0b00. The place is that of the options, 3.
    Mode { place: u8 },
    /// There are more than 127 octets. The place is 127.
    Long { place: u8 },
}

/// Where a message goes.
#[derive(Clone, Copy, Debug, PartialEq, Eq)]
pub enum Dest {
    /// To all nodes.
    All,
    /// To the nodes of a group.
    GroupOf(u16),
    /// To the node of this address.
    NodeAt(u16),
}

/// A message on its way.
#[derive(Clone, Debug, PartialEq, Eq, Drop)]
pub struct Sent {
    /// Where it goes.
    pub to: Dest,
    /// What it says.
    pub body: Cluster,
}

/// The fault of octets that end too early.
pub(crate) fn short(octets: &[u8]) -> ClusterReason
    requires { length octets.now ≤ 127 }
    ensures { result ≡ ClusterReason.Short (length octets.now) }
{
    ClusterReason::Short {
        place: octets.len() as u8,
    }
}
