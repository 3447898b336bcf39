//! Tests of disks, over the public calls of `gp_disk` alone.
//! They show what no contract says: what the five ways of a crash leave of given octets, and what a file holds.
#![tactic(auto)]

#[cfg(test)]
mod tests;
