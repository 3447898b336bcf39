//! Why a line isn't played.

use gp_script::LineReason;

/// Why a line isn't played. The world is as it was.
#[derive(Clone, Copy, Debug, PartialEq, Eq)]
pub enum NetFault {
    /// Memory was asked for and not found.
    NoMemory,
    /// The line is refused.
    Bad(LineReason),
}
