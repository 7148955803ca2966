//! A growing list of texts that take no memory of their own: their bytes stand one after the other.
#![tactic(auto)]

pub mod examples;
mod list;

pub use list::TextList;
