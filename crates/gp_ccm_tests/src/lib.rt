//! Tests of `gp_ccm` by its public calls: the published examples, and tags with one bit changed.
//! They stand apart, so that a changed test proves neither `gp_ccm` nor its edits again.
#![tactic(auto)]

#[cfg(test)]
mod tests;
