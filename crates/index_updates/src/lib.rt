//! Documents that come into an index and go out of it: each change gives a new version of the index, and leaves the one that
//! it was lent as it is.
//!
//! `adding` puts the document of a tree in, `dropping` takes a document out, `changing` follows an edit of one, and `rebreaking` other
//! abbreviations. A version follows a tree where it has the tree's leaves, with their words and breaks.
#![tactic(auto)]

mod adding;
mod changing;
mod dropping;
pub mod examples;
pub mod laws;
mod rebreaking;

pub use adding::{Found, add_doc, add_loaded};
pub use changing::apply_change;
pub use dropping::drop_doc;
pub use rebreaking::rebreak;
