//! Why a line is refused.

/// Why a line of the input is refused.
#[derive(Clone, Copy, PartialEq, Eq, Debug)]
pub enum LineReason {
    /// The line has none of the forms of its command.
    Form,
    /// It makes a node whose name or address is taken.
    Taken,
    /// It makes the 65th node of its kind.
    Many,
    /// It names a node of its kind that is absent.
    Absent,
    /// It names a frame or a message whose number is absent.
    Missing,
}
