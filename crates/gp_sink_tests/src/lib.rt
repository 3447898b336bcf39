//! Tests of sinks, over the public calls of `gp_sink` alone.
//! They show what no contract says: what a sink answers to frames that were sealed by another implementation (AES-128 and a
//! CCM written apart from the program), as the lines of a report have it.
#![tactic(auto)]

#[cfg(test)]
mod tests;
