//! Tests of `gp_script` by its public calls: lines that are read, printed and refused.
//! They stand apart, so that a changed test proves neither `gp_script` nor its edits again.
#![tactic(auto)]

#[cfg(test)]
mod tests;
