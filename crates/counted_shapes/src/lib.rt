//! Counted shapes: words that occur so often in one window, sentence or paragraph, and words that don't.
//!
//! `occurs` under a window or a scope counts what lies in one field: `laws` says so of the definitions. `field_of` names the filters that ask for a
//! field.
#![tactic(auto)]

pub mod examples;
mod field;
pub mod laws;

pub use field::{Field, field_of};
