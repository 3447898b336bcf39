//! Tests of `gp_aes` by its public calls: the published examples.
//! They stand apart, so that a changed test proves neither `gp_aes` nor its edits again.
#![tactic(auto)]

#[cfg(test)]
mod tests;
