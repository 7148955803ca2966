//! How many documents have each term, by the term's number.
//!
//! A document that comes raises the counts of its terms, and one that goes lowers them, so that a term which no
//! document has any more is known at once. A copy shares its memory with the counts that it was made of.
#![tactic(auto)]

mod counts;
pub mod examples;

pub use counts::DocumentCounts;
