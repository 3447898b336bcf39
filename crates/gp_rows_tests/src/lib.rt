//! Tests of `gp_rows` by its public calls: one row from its pairing to its end, two rows, and that the calls succeed.
//! They stand apart, so that a changed test proves neither `gp_rows` nor its edits again.
#![tactic(auto)]

#[cfg(test)]
mod tests;
