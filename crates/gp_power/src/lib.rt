//! One sink of a simulated network, with its power.
//! To the layer above, such a sink stands for an ideal one with its power (`StandsFor`): it runs, has none, or is halted with an
//! open change. Each event makes of it what it makes of each ideal sink for which it stands (`Comes`), and the bit of a change that
//! isn't decided is what its own disk then holds.
#![tactic(auto)]

mod answer;
mod falling;
mod power;
mod sinks;
mod waking;

pub use answer::{Answer, message_of};
pub use power::Powered;
