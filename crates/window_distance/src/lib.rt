//! Positional filters on one Match: whether a filter keeps the Match with its includes, whether it keeps an exclude of
//! it, and the hit that stands for the includes after it.
//!
//! Each call is its definition in `all_matches`, hit by hit, and takes no memory. A Match has few includes, so that
//! what a definition says of every two of them is tried on every two, and the order of hits in a text is found by
//! looking for the next one anew (`neighbours`).
#![tactic(auto)]

mod covering;
mod includes;
mod joining;
mod keeping;
mod neighbours;
mod pairs;
mod passing;
mod positions;

pub use all_matches::Window;
pub use includes::Includes;
pub use joining::join;
pub use keeping::keeps;
pub use passing::passes;
pub use positions::{end_in, start_in};
