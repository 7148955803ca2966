//! Worked rows: public calls of the parts below sessions, with their answers.
//!
//! Each file has one subject. A row is a line of a table, and each test tries one table in a loop.
#![tactic(auto)]

#[cfg(test)]
mod fragments;
#[cfg(test)]
mod list_contents;
#[cfg(test)]
mod patterns;
#[cfg(test)]
mod posting_lists;
#[cfg(test)]
mod prefixes;
#[cfg(test)]
mod printed_forms;
#[cfg(test)]
mod read_paths;
#[cfg(test)]
mod replies;
#[cfg(test)]
mod selection_prints;
#[cfg(test)]
mod symbols;
pub mod texts;
#[cfg(test)]
mod thesauri;
#[cfg(test)]
mod tokens;
#[cfg(test)]
mod tree_changes;
#[cfg(test)]
mod trees;
#[cfg(test)]
mod unicode_forms;
