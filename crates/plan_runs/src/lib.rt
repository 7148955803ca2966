//! Runs: plans opened over a version of an index, and tested at spans of its documents.
//!
//! A run has terms of the version and cursors in the place of tests of words (`opening`). It counts words by merging their cursors
//! (`words_holding`), decides filters over single words by merges of their own where one pass through their places tells
//! (`merge_holding`), and so one phrase outside another (`placed_holding`). A phrase at an edge of the text is asked for at its place
//! there (`edge_holding`). Windows and scopes over phrases, as nested as one likes, are decided by one pass through the ends of their hits
//! (`near_holding`), and order and distances by one through their hits (`hits_holding`). Words that have to occur so often in one window,
//! sentence or paragraph are counted as their hits come into it and go out of it (`counts_holding`). Each other filter and `not in` is decided
//! by a walk through its ways (`ways_holding`). `plan_kinds` says which of these decides a plan. Up to where the words that a selection needs
//! begin, a document can be skipped (`skipping`); those words are looked up in a document once (`looking_up`). A session asks a `Judge` with
//! it.
//!
//! Parts of compiled selections are also opened by themselves (`opened_part`), and walks through the ways of operators (`opened_walk`).
#![tactic(auto)]

mod aiming;
mod asked_place;
mod choosing;
mod counts_holding;
mod counts_skipping;
mod edge_holding;
pub mod examples;
mod hits_holding;
mod holding;
mod judge;
pub mod laws;
mod looking_counts_up;
mod looking_up;
mod merge_holding;
mod near_holding;
mod needed_skips;
mod needs;
mod occurrence_ranges;
mod opened_part;
mod opened_walk;
mod opening;
mod opening_counts;
mod opening_hits;
mod opening_merges;
mod opening_near;
mod opening_needs;
mod opening_operators;
mod opening_placed;
mod placed_holding;
mod rarity;
mod reading;
mod ruled_out;
mod run;
mod run_counts;
mod run_hits;
mod run_merge;
mod run_near;
mod run_node;
mod run_placed;
mod run_ways;
mod skipping;
mod stem_terms;
mod units;
mod ways_holding;
mod words_holding;

pub use choosing::Opening;
pub use judge::{Direct, Judge};
pub use opened_part::OpenedPart;
pub use opened_walk::open_walk;
pub use run::Run;
