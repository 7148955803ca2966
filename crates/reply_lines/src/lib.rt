//! The commands of a session as values, what they are answered, and the text of each reply.
#![tactic(auto)]

mod command;
pub mod examples;
mod print;
mod reply;

pub use command::{Command, Commands};
pub use plain_tree::How;
pub use print::print_reply;
pub use reply::{Counts, FullOf, LimitOf, MAX_WATCHES, Refusal, Reply};
