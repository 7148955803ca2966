//! That the line which names an element of a document is a path that selects just that element.
#![tactic(auto)]

pub mod laws;
