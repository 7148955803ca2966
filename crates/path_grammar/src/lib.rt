//! The paths of queries: which symbols spell one, as a grammar and as a machine that decides it.
//!
//! The crate has the types, definitions in `specs/`, and laws and worked examples, each the contract of a function without a body.
#![tactic(auto)]

pub mod examples;
pub mod laws;
mod path;

pub use path::{
    Condition, NameTest, Path, PathRoot, Predicate, Predicates, RelativePath, RelativePaths, Step,
    Steps,
};
