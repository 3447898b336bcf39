//! Tests of the program as one call, over a source, an output and a disk in memory: worked examples of the formats, lives of a sink, and faults
//! of these objects. What the program makes of further inputs stands in files, in `cases/` at the top of the repository.
#![tactic(auto)]

#[cfg(test)]
mod tests;
