//! In which groups of documents each term may stand, by the term's number.
//!
//! A document is in the group of its number modulo 64. Where a term may not stand in a document's group, it doesn't stand in
//! the document, and nothing of the document has to be read to know it. `groups` are the groups of one term, `index_groups`
//! those of all.
#![tactic(auto)]

pub mod examples;
mod groups;
mod index_groups;

pub use groups::Groups;
pub use index_groups::TermGroups;
