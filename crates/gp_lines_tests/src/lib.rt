//! Tests of `gp_lines` by its public calls: a work with a state over lines in pieces, stops and faults.
//! They stand apart, so that a changed test proves neither `gp_lines` nor its edits again.
#![tactic(auto)]

#[cfg(test)]
mod tests;
