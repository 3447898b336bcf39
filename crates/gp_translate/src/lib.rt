//! What a sink makes of the commands of Green Power devices: commands of the Zigbee Cluster Library (ZCL).
//! To the layer above `Rules` are a list of rules that `add` extends at its end, and `translate` gives one `Act` for each
//! rule that concerns the command and its device, in the order of the rules, at most four. The contracts cite
//! `acts_of`, which says what the acts are, `refusal`, a table of tests with the reason beside each, and `standard`, the list of
//! the rules that a sink begins with; `acts` and `added` say the same of octets and of the list. No call takes memory.
//!
//! The meanings of the commands are those of the ZCL: Identify (3.5), Scenes (3.7), On/Off (3.8), Level Control (3.10), Door
//! Lock (7.3) and, of the general commands, Report Attributes (2.5.11). Numbers stand least significant octet first.
#![tactic(auto)]

mod act;
mod meanings;
mod rule;
mod rules;
mod translation;

pub use act::{Act, Acts};
pub use rule::{Rule, RuleReason, Target};
pub use rules::Rules;
pub use translation::translate;
