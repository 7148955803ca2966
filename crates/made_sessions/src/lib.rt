//! Sessions made up for measurements: documents of numbered words, queries over them, and one edit; and what a call asks of one.
#![tactic(auto)]

mod asked;
mod document;
pub mod examples;
mod session;

pub use asked::{asked_count, short};
pub use session::make_session;
