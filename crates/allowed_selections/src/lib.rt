//! Where `ftnot` and `occurs` stand in selections that were read.
#![tactic(auto)]

pub mod laws;
