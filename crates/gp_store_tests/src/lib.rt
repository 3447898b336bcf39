//! Tests of stores, over the public calls of `gp_store` alone.
//! They show what no contract says: the octets of slots, place by place, that each rule on slots refuses, and that the
//! definitions of what a crash leaves say what the format says.
#![tactic(auto)]

#[cfg(test)]
mod tests;
