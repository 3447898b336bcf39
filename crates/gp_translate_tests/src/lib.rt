//! Tests of `gp_translate` by its public calls: values from the formats, refusals, and that the calls succeed.
//! They stand apart, so that a changed test proves neither `gp_translate` nor its edits again.
#![tactic(auto)]

#[cfg(test)]
mod tests;
