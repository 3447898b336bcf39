//! Which of the five messages octets are: the header (Zigbee Cluster Library, 2.4.1).

ghost use Rattle.std.specs.Prelude.{◌≡◌};
ghost use Rattle.gp_cluster.specs.Kind as words;
ghost use Rattle.gp_cluster.specs.Message.{control as control_octet};

use crate::message::Cluster;

/// The five messages.
#[derive(Clone, Copy, Debug, PartialEq, Eq)]
pub(crate) enum Kind {
    Notification,
    CommissioningNotice,
    Pairing,
    ProxyMode,
    Response,
}

impl Kind {
    /// Whether sinks send it, which is direction 1. Proxies send the others.
    pub fn is_from_sink(self) -> bool
        ensures { result ≡ words.is_from_sink self }
    {
        match self {
            Kind::Notification => false,
            Kind::CommissioningNotice => false,
            Kind::Pairing => true,
            Kind::ProxyMode => true,
            Kind::Response => true,
        }
    }

    /// The command's number.
    pub fn command_number(self) -> u8
        ensures { result ≡ words.command_number self }
    {
        match self {
            Kind::Notification => 0x00,
            Kind::CommissioningNotice => 0x04,
            Kind::Pairing => 0x01,
            Kind::ProxyMode => 0x02,
            Kind::Response => 0x06,
        }
    }
}

/// The message of this direction and number.
pub(crate) fn kind_of(from_sink: bool, command: u8) -> Option<Kind>
    ensures { result ≡ words.kind_of from_sink command }
{
    if from_sink {
        if command == 0x01 {
            return Some(Kind::Pairing);
        }
        if command == 0x02 {
            return Some(Kind::ProxyMode);
        }
        if command == 0x06 {
            return Some(Kind::Response);
        }
        return None;
    }
    if command == 0x00 {
        return Some(Kind::Notification);
    }
    if command == 0x04 {
        return Some(Kind::CommissioningNotice);
    }
    None
}

/// Which of the five a message is.
pub(crate) fn kind_in(body: &Cluster) -> Kind
    ensures { result ≡ words.kind_in body.now }
{
    match body {
        Cluster::Notification(_) => Kind::Notification,
        Cluster::CommissioningNotice(_) => Kind::CommissioningNotice,
        Cluster::Pairing(_) => Kind::Pairing,
        Cluster::ProxyMode(_) => Kind::ProxyMode,
        Cluster::Response(_) => Kind::Response,
    }
}

/// Whether a control octet is that of a cluster's own command without manufacturer code.
pub(crate) fn has_header_form(control: u8) -> bool
    ensures { result ≡ Rattle.gp_cluster.specs.Message.has_header_form control }
{
    control % 4 == 1 && control / 4 % 2 != 1 && control / 32 == 0
}

/// The control octet.
pub(crate) fn control(from_sink: bool, quiet: bool) -> u8
    ensures { result ≡ control_octet from_sink quiet }
{
    1 + 8 * u8::from(from_sink) + 16 * u8::from(quiet)
}
