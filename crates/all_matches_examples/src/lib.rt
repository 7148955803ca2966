//! SelectionExamples: further worked examples of what selections satisfy, and of which are allowed, by computation.
//!
//! The definitions are those of `all_matches`, which has examples too. These are a crate of their own, on which nothing
//! stands, so that an example more proves nothing else anew.
#![tactic(auto)]

pub mod allowed;
pub mod connective;
pub mod counting;
pub mod distance;
pub mod hit;
pub mod occurs;
pub mod operators;
pub mod ordered;
pub mod scope;
pub mod selections;
pub mod ways;
pub mod window;
pub mod word;
