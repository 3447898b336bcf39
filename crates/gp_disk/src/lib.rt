//! Disks, and what a power cut may leave of them.
//! To the layer above, a disk is the image that a read gives, the images that a crash now may leave and those
//! that one at some moment since the last `begin` might have left, beside the counts of its calls and of its
//! faults. The contracts cite `Disk` for these, `Calls` and `Durable` for what each call leaves of them, and `Fuse` for
//! failures that are armed.
#![tactic(auto)]

mod arming;
mod content;
mod counts;
mod device;
mod durable;
mod file;
mod log;
mod memory;
mod replay;
mod trigger;

pub use device::Disk;
pub use durable::{stable, stable_zero};
pub use file::FileDisk;
pub use memory::MemoryDisk;
