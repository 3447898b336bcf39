//! The lines that the program reads and writes, as values.
//! To the layer above, a line is read as exactly what its form says, and refused exactly where it has none of
//! the forms; an entry of a report is printed in its one spelling, and read back from it.
//! The contracts cite `Capture` for the lines of a capture, `Script` for those of a script, `SinkScript` for those of one sink's
//! life and `Report` for those of a report; `Words` and `Kinds` say what their words are.
#![tactic(auto)]

mod capacity;
mod capture;
mod kinds;
mod name;
mod printing;
mod reason;
mod report;
mod script;
mod sink_script;
mod spelled;
mod standing;
mod text;
mod words;

pub use capacity::Capacity;
pub use capture::{Capture, NotALine, read_capture};
pub use name::Name;
pub use printing::{Line, print_entry};
pub use reason::LineReason;
pub use report::{
    Cause, CommandFault, Dest, Dropped, Entry, FrameFault, Refusal, Report, RuleAnswer, read_entry,
};
pub use script::{Action, Event, RuleForm, SinkMode, read_event};
pub use sink_script::{SinkAction, SinkEvent, read_sink_event};
