//! Tests of `gp_pcap` by its public calls: files in both orders of octets, with each answer at the end.
//! They stand apart, so that a changed test proves neither `gp_pcap` nor its edits again.
#![tactic(auto)]

#[cfg(test)]
mod tests;
