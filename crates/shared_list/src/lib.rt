//! A list whose copies share their memory: its items stand in blocks, each after a counted pointer. A copy of the
//! list counts the blocks once more and copies no item, and a change to one of two such lists copies the block that
//! it changes and leaves the other list as it was. Contracts see the plain list of the items.
//!
//! `block` is one block, `blocks` the blocks of a list with the place where each starts, `list` the list itself.
#![tactic(auto)]

mod block;
mod blocks;
pub mod examples;
mod list;
mod share;
mod starts;

pub use list::SharedList;
pub use share::Share;
pub use starts::last_at_most;
