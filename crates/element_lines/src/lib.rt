//! The lines of a reply to a query: those that name elements, those that are their printed forms, and those that show words.
#![tactic(auto)]

mod counting;
mod counts;
pub mod examples;
pub mod laws;
mod leading;
mod marked;
mod names;
mod numbers;
mod printed;
mod siblings;
mod span_ends;
mod step_texts;

pub use marked::Marking;
pub use names::push_names;
pub use printed::push_printed;
