//! A vector whose copies share their memory: its items stand in blocks of one length, each after a counted pointer. A
//! copy of the vector counts the blocks once more and copies no item, and a change to one of two such vectors copies the
//! block that it changes and leaves the other vector as it was. Contracts see the plain list of the items.
//!
//! Items come at the end alone, so that all blocks but the last are full and an item's block follows from its place.
#![tactic(auto)]

mod block;
pub mod examples;
mod same;
mod sharing;
mod vector;

pub use same::Same;
pub use vector::SharedVector;
