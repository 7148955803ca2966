//! Lists of hits over the index of one document: the places of a term in a span, each as the hit of a single word, and
//! all places of a span. They take no memory.
//!
//! `break_view` finds the sentence and the paragraph of a word, `every` has all places of a span, `cursor` those of a
//! term, and `search` finds the first of them.
#![tactic(auto)]

mod break_view;
mod cursor;
mod every;
pub mod examples;
mod search;

pub use break_view::BreakView;
pub use cursor::{Cursor, first_word, first_word_near};
pub use every::Every;
