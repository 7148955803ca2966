//! The hits of a phrase in the spans of an index's documents, one after the other: a walk for those who decide selections
//! with filters.
//!
//! A phrase is aimed at a span of a document (`aiming`), and then each spot of the span at which one of its variants stands is
//! a hit (`finding`), told in the span's own numbers (`telling`). What it has there is what the phrase has among the
//! tokens of the span (`laws`). Where bounds are given, only the part of the span is looked at in which hits can lie in them
//! (`part`).
#![tactic(auto)]

mod aiming;
pub mod examples;
mod finding;
mod found;
pub mod laws;
mod part;
mod phrase_cursor;
mod target;
mod telling;
mod unit_numbers;
mod word_terms;

pub use phrase_cursor::PhraseCursor;
pub use word_terms::WordTerms;
