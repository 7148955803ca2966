//! What an edit makes of a document whose nodes have references, and which leaves it changes.
//!
//! An edit is that of the plain document at the place of the element; nodes that stay keep their references, and the content takes
//! free ones. `draft` makes it of a document in slots, so that what it makes can be looked at first; `insert`, `replace` and
//! `remove` carry it out. A `Change` is what an edit changed. The laws and the examples are each the contract of a function
//! without a body.
#![tactic(auto)]

mod change;
mod changing;
mod drafting;
mod drafts;
mod edit;
mod editing;
pub mod examples;
mod fresh;
mod joining;
pub mod laws;
mod marks;
mod measuring;
mod trees;

pub use change::Change;
pub use drafting::draft;
pub use drafts::Draft;
pub use trees::{TreeFault, insert, remove, replace};
