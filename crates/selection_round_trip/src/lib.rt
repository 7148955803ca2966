//! What holds of the printed forms of selections that were read.
#![tactic(auto)]

pub mod laws;
