//! What a session of the search engine holds, and what each command does to it.
#![tactic(auto)]

mod asked_runs;
mod edit;
mod editing;
pub mod examples;
mod explaining;
mod holding;
mod keeping;
pub mod laws;
mod lists;
mod marked_words;
mod marks;
pub mod node_laws;
mod paths;
mod planned;
mod refusing;
mod selected;
mod session;
mod shown;
mod stats;
mod targets;
mod text_left;
mod turns;
mod watches;
mod watching;

pub use session::Session;
