//! Tests of `gp_base` by its public calls: examples from the formats, faults by lists of failing calls, printed texts, and that the calls succeed.
//! They stand apart, so that a changed test proves neither `gp_base` nor its edits again.
#![tactic(auto)]

#[cfg(test)]
mod tests;
