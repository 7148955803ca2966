//! The index of one document, over the numbers of its terms: which terms it has, and at which places each of them
//! stands. Leaves come into it and go out of it one by one or all at once, and each row that comes or goes is counted.
//!
//! `term_leaf` is one leaf, `index_document` the index, `term_places` the places of one term. Inside, `parts` is what an index
//! is made of: `leaves` with `slots`, where each leaf is found by its number, and `terms` with the rows of each. `entry` makes
//! words into rows, `leaf_terms` tells the terms of words one after the other, and `numbers` keeps numbers in 32 bits; `changes`, `put_rows`, `take_rows` and `groups` put the
//! rows of a leaf in, or take them out.
#![tactic(auto)]

mod changes;
mod entry;
pub mod examples;
mod groups;
mod index_document;
mod leaf_terms;
mod leaves;
mod numbers;
mod parts;
mod put_rows;
mod slots;
mod take_rows;
mod term_leaf;
mod term_places;
mod terms;

pub use index_document::DocIndex;
pub use term_leaf::TermLeaf;
pub use term_places::TermPlaces;
