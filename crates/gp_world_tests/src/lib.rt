//! Tests of the definitions of `gp_world`: scripts whose reports they compute.
#![tactic(auto)]
