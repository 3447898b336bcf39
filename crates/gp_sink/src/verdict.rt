//! What a sink answers.

use gp_base::Src;
use gp_cluster::Sent;
use gp_commission::OfferReason;
use gp_frames::FrameReason;
use gp_translate::Acts;

/// What a sink answers to octets, and to an offer. A verdict that changes what the sink remembers is given after the change
/// is on the disk.
#[derive(Clone, Debug, PartialEq, Eq, Drop)]
pub enum Verdict {
    /// A frame of a paired device is acted on.
    Acted {
        /// The number of its row.
        row: u16,
        /// The device.
        source: Src,
        /// The frame's counter.
        counter: u32,
        /// The identifier of the device's command.
        command: u8,
        /// What is done.
        acts: Acts,
    },
    /// A device is paired.
    Paired {
        /// The number of its row.
        row: u16,
        /// The device.
        source: Src,
        /// The row's floor: frames at or below it are stale.
        floor: u32,
        /// What proxies are told.
        message: Sent,
    },
    /// A device is unpaired by its own frame.
    Unpaired {
        /// The number of its row.
        row: u16,
        /// The device.
        source: Src,
        /// The frame's counter.
        counter: u32,
        /// What proxies are told.
        message: Sent,
    },
    /// A device isn't paired.
    Refused(OfferReason),
    /// A new pair of SrcID and key meets 1,024 rows.
    Full,
    /// A frame is dropped.
    Dropped(Cause),
}

/// Why a frame is dropped: the first that applies.
#[derive(Clone, Copy, Debug, PartialEq, Eq)]
pub enum Cause {
    /// It is no frame.
    Malformed(FrameReason),
    /// It goes to a device.
    ToDevice,
    /// It isn't secured.
    Unsecured,
    /// Its SrcID has no current pairing.
    Unknown,
    /// Its SecurityKey bit doesn't fit the kind of the pairing's key.
    KeyBit,
    /// Its security level isn't the pairing's.
    LevelOther,
    /// Its MIC isn't right.
    BadTag,
    /// Its counter isn't above the floor.
    Stale {
        /// The floor of the pairing.
        floor: u32,
    },
}

/// Why a sink gives no verdict.
#[derive(Clone, Copy, Debug, PartialEq, Eq)]
pub enum SinkFault {
    /// An earlier call answered `Worn` or `DiskFault`.
    Halted,
    /// The last generation is the greatest there is, so nothing more can be remembered.
    Worn {
        /// That generation.
        generation: u64,
    },
    /// The disk has failed.
    DiskFault,
}
