//! What paths mean: which elements of a document, and of a collection, a path selects, and which tests of text it asks for.
//!
//! Definitions in `specs/`, and laws and worked examples, each the contract of a function without a body. What a selection says
//! of an element is handed in.
#![tactic(auto)]

pub mod examples;
pub mod laws;
