//! Tests of sinks with power, over the public calls of `gp_power` alone.
//! They show what no contract says: which image a cut or a fault at a given device call leaves, for each way of a crash.
#![tactic(auto)]

#[cfg(test)]
mod tests;
