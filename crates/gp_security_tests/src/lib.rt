//! Tests of `gp_security` by its public calls: values of another implementation, what isn't opened, and that the calls succeed.
//! They stand apart, so that a changed test proves neither `gp_security` nor its edits again.
#![tactic(auto)]

#[cfg(test)]
mod tests;
