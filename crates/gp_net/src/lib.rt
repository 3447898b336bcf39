//! The network: devices, sinks and the air between them, one line of a script at a time.
//! To the layer above, a world stands for an ideal one (`Stands`): each of its sinks for a ledger of changes, which its rows
//! fit. One step of a world is one step of the ideal network for each ideal world that it stands for (`Goes`).
//! Sinks run over disks in memory, and their power comes and goes; the network keeps no rows of its own.
#![tactic(auto)]

mod device;
mod fault;
mod net;
mod node;
mod reply;
mod world;

pub use fault::NetFault;
pub use gp_telling::Lines;
pub use world::World;
