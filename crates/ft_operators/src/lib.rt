//! Walks through the ways in which a selection with filters may be satisfied: in each way one hit of each phrase that it
//! needs is chosen, one side of each Or, and one window of each window filter.
//!
//! A selection is a tree of nodes over lists of hits (`node`), and each node goes through its ways by those of its
//! operands, from the first to the last (`walking`): it looks at one way at a time and keeps no list of them. The includes
//! of the present way are put into memory that was taken when the tree was made (`gathering`), and a filter is asked of
//! them (`choosing`). What a node has left says what its operands have left, so that no fact about their places is kept
//! beside it (`specs/steps/Forms.antt`).
//!
//! Where it is only asked whether some way is clean, a walk seeks each further hit where those that were chosen before, and
//! the filters round all of them, let it lie (`bounds`, `narrowing`): ways that it leaves out go through no filter. How far
//! apart the includes before a distance may lie follows from how many they are and how large they are, which is read
//! off the hits before (`measuring`). In sentences and paragraphs it does so where the hits begin in the order of the text, which is
//! looked at too (`rising`). How far from the hits of the left side of a mild not an include of the right side lies that covers
//! them, where each way of the right side has no more than one, is read off them likewise.
//!
//! Of the clean ways the one whose includes come first by their places is found by going through all of them (`comparing`), but for ways that
//! come in the order of their includes: there it is the first clean one (`ordering`).
#![tactic(auto)]

mod aiming;
mod bounds;
mod building;
mod chain;
mod chain_room;
mod choosing;
mod cleaning;
mod comparing;
mod course;
pub mod examples;
mod extent;
mod gathering;
mod joining;
mod kept_bounds;
mod measuring;
mod narrowing;
mod node;
mod ordering;
mod own_span;
mod phrase_hits;
mod probing;
mod reach;
mod rising;
mod standing_out;
mod tuples;
mod walking;

pub use bounds::{Bounds, OrderBound, UnitBounds};
pub use chain::Chain;
pub use phrase_hits::PhraseHits;
pub use probing::probe;
pub use tuples::Tuples;
