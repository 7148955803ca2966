//! What is wrong with a selection that was read, and the selection that it stands for.
#![tactic(auto)]

mod counted;
pub mod examples;
mod faults;
mod given;
mod least_places;
mod options;
mod placed_fault;
mod selection;
mod strings;

pub use faults::first_fault;
pub use selection::selection_of;
