//! Why a store refuses.
use thiserror::Error;

/// Why a disk isn't formatted, or a store isn't recovered from it.
#[derive(Clone, Copy, Debug, PartialEq, Eq, Error)]
pub enum StoreFault {
    /// The disk has failed.
    #[error("DiskFault")]
    DiskFault,
    /// The disk has fewer than 204,800 octets.
    #[error("DiskShort")]
    DiskShort,
    /// The header doesn't say that the disk is formatted.
    #[error("NotFormatted")]
    NotFormatted,
    /// The gate of the disk's header, octet 0, is open, whatever stands behind it.
    #[error("AlreadyFormatted")]
    AlreadyFormatted,
    /// This is the smallest open slot that is ill.
    #[error("SlotForm")]
    SlotForm { slot: u32 },
    /// There isn't memory for 1,024 rows.
    #[error("NoMemory")]
    NoMemory,
}

/// A refusal, with the disk that was handed in.
#[derive(Debug, Drop)]
pub struct Refused<D> {
    /// Why it is refused.
    pub fault: StoreFault,
    /// The disk. No octet was written on it.
    pub disk: D,
}

/// Why a commit isn't made, or has failed.
#[derive(Clone, Copy, Debug, PartialEq, Eq)]
pub enum CommitFault {
    /// A new pair of SrcID and key meets 1,024 rows.
    TableFull,
    /// The last generation is the greatest there is.
    Worn { generation: u64 },
    /// The disk has failed. Whether the change is on it shows after a recovery.
    DiskFault,
    /// An earlier commit answered Worn or DiskFault.
    Halted,
}
