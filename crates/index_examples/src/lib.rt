//! Further worked examples of what an index holds, by computation.
//!
//! The definitions are those of `index_meaning`, which has examples too. These are a crate of their own, on which nothing
//! stands, so that an example more proves nothing else anew.
#![tactic(auto)]

pub mod rows;
pub mod terms;
