//! What a frame is, and why octets are none.

ghost use Rattle.std.specs.Prelude.{◌≡◌, ◌≤◌};
ghost use Rattle.gp_frames.specs.Frame as words;

use gp_base::{Octets, Src};

/// An MPDU that carries a Green Power device frame (IEEE 802.15.4, 7.2). It has the one MAC form that is
/// accepted here: a data frame with short addresses, without FCS.
#[derive(Clone, PartialEq, Eq, Debug, Drop)]
pub struct Mpdu {
    /// The MAC sequence number.
    pub seq: u8,
    /// The destination PAN.
    pub pan: u16,
    /// The destination address.
    pub dest: u16,
    /// What the MAC frame carries.
    pub frame: Gpdf,
}

/// The extended NWK frame control (Zigbee PRO Green Power, A.1.4.1.3). Its ApplicationID is 0.
#[derive(Clone, Copy, PartialEq, Eq, Debug)]
pub struct Ext {
    /// The security level: 0, 2 or 3.
    pub level: u8,
    /// The SecurityKey bit: whether the key is one of this device alone.
    pub individual: bool,
    /// RxAfterTx: whether the device listens after this frame.
    pub rx_after: bool,
    /// The direction: whether the frame goes to the device.
    pub to_device: bool,
}

impl Ext {
    /// The octet that it is sent as: ApplicationID 0, level, SecurityKey, RxAfterTx, direction.
    pub fn octet(self) -> u8
        requires { self.level ≤ 3 }
        ensures { result ≡ words.extension self }
    {
        8 * self.level
            + 32 * u8::from(self.individual)
            + 64 * u8::from(self.rx_after)
            + 128 * u8::from(self.to_device)
    }
}

/// A Green Power device frame (Zigbee PRO Green Power, A.1.4.1).
#[derive(Clone, PartialEq, Eq, Debug, Drop)]
pub struct Gpdf {
    /// Whether this is a maintenance frame; else it is a data frame.
    pub maintenance: bool,
    /// The auto-commissioning bit.
    pub auto: bool,
    /// The extended frame control, where it is there.
    pub ext: Option<Ext>,
    /// The SrcID, which a maintenance frame without extension lacks.
    pub src: Option<Src>,
    /// The frame counter, at level 2 and 3.
    pub counter: Option<u32>,
    /// The command identifier and its payload, at least one octet. At level 3 it is encrypted.
    pub body: Octets,
    /// The message integrity code, at level 2 and 3.
    pub mic: Option<[u8; 4]>,
}

impl Gpdf {
    /// The security level, which is 0 without extension.
    pub fn level(&self) -> u8
        ensures { result ≡ words.level_of self.now }
    {
        match self.ext {
            Some(ext) => ext.level,
            None => 0,
        }
    }

    /// The NWK frame control, as it is sent: type, version 3, auto-commissioning, extension.
    pub fn control(&self) -> u8
        ensures { result ≡ words.control self.now }
    {
        u8::from(self.maintenance)
            + 12
            + 64 * u8::from(self.auto)
            + 128 * u8::from(self.ext.is_some())
    }
}

/// Why octets are no frame. The first fault from the left answers. Each has a place in the octets: 125 for
/// `TooLong`, 0 for `MacForm`, 7 for `FrameKind` and `Version`, 8 for `AppId`, `LevelOne` and
/// `SecuredMaintenance`, and the place beside the others.
#[derive(Clone, Copy, PartialEq, Eq, Debug)]
pub enum FrameReason {
    /// More than 125 octets, the longest MPDU without FCS.
    TooLong,
    /// An octet is missing at this place, which is the length of the input.
    Short {
        /// Where the octet is missing.
        place: u8,
    },
    /// The MAC frame control isn't 01 08.
    MacForm,
    /// The frame type is neither a data frame nor a maintenance frame.
    FrameKind,
    /// The version of the NWK frame isn't 3.
    Version,
    /// The ApplicationID isn't 0.
    AppId,
    /// Security level 1, which is reserved.
    LevelOne,
    /// A maintenance frame at level 2 or 3.
    SecuredMaintenance,
    /// No octet is left for the command, which should begin at this place.
    NoCommand {
        /// Where the command should begin.
        place: u8,
    },
}
