//! Which way decides a compiled selection with filters or `not in`.
//!
//! Over phrases that are joined by `ftand` and numbered one after the other, a filter is decided by a merge of the places of single words
//! (`merge_of`), or by one pass through the hits of phrases where it is `ordered`, or a distance of two (`pass_of`). A phrase at an edge of the
//! text (`edge_of`) and one outside another (`outside_of`) are decided by their spots. Windows and scopes over phrases, as nested as one likes
//! (`is_near`), are decided by one pass through the ends of their hits. What is left takes a walk through its ways.
#![tactic(auto)]

mod asked_keys;
mod edges;
pub mod examples;
mod joined;
mod joining;
mod merge_kind;
mod merges;
mod near;
mod outside;
mod pass_kind;
mod passes;
mod phrases;

pub use asked_keys::{asked_key, asks_nothing};
pub use edges::edge_of;
pub use merge_kind::MergeKind;
pub use merges::merge_of;
pub use near::is_near;
pub use outside::outside_of;
pub use pass_kind::PassKind;
pub use passes::pass_of;
