//! What is told of one line: the entries of a report, in their order, and their text; and what a line asks of a sink.
//! To the layer above, each call of `Telling` adds the entries of what happened (`Said`), where there is room for them;
//! `put_report` adds the text of a report (`report_text`); `asking` makes the values that the calls of a sink take.
#![tactic(auto)]

mod asking;
mod telling;
mod texts;
mod words;

pub use asking::{config_of, offer_of, rule_of};
pub use telling::{Lines, Telling};
pub use texts::put_report;
