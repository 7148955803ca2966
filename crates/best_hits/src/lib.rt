//! The best hits of a selection that a text satisfies: those by which it is shown why the text does.
//!
//! Definitions and laws, no code. By the laws `plan_compiler` compiles a selection to what shows its best hits.
#![tactic(auto)]

pub mod examples;
pub mod laws;
