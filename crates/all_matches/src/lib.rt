//! AllMatches: what a selection of a full-text query means, as section 4 of XQuery and XPath Full Text 3.0 has it.
//!
//! The crate has definitions, in `specs/`, the type of windows, and laws and examples, each the contract of a function
//! without a body.
//! A selection is plain data (`Form` of `ft_base`), and what words, options and lists mean is handed in (`Lexicon`).
#![tactic(auto)]

pub mod examples;
pub mod laws;
mod window;

pub use window::Window;
