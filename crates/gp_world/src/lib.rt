//! The ideal network: what sinks, devices and the air between them do, as definitions alone.
//! A line of a script is one step of a world of ideal sinks and devices, and a run is one step after the other.
//! Contracts above cite `Step` and `Run` for a network, `Life` for one sink over a disk, and `Properties` for what holds of every
//! run.
#![tactic(auto)]
