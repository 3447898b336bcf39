//! Tests of `gp_commands` by its public calls: values from the formats, refusals, and that the calls succeed.
//! They stand apart, so that a changed test proves neither `gp_commands` nor its edits again.
#![tactic(auto)]

#[cfg(test)]
mod tests;
