//! The text of a session: the commands of its bytes, in whatever pieces these come.
#![tactic(auto)]

mod add;
pub mod examples;
mod line;
mod named;
mod named_with_path;
mod parse;
mod quoted;
mod reached;
mod reader;
mod size;
mod sized;
mod unfinished;
mod words;

pub use reader::Lines_;
pub use reply_lines::{
    Command, Commands, Counts, FullOf, How, LimitOf, MAX_WATCHES, Refusal, Reply, print_reply,
};
