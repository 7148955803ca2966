//! A document as a plain tree: elements with attributes and children, and texts.
#![tactic(auto)]

mod change;
mod copying;
mod document;
mod editing;
pub mod examples;
mod joining;
mod place;
mod replacing;
mod tree;

pub use copying::copy_attrs;
pub use document::PlainDoc;
pub use place::{How, Place, PlaceFault};
pub use tree::{Attr, Attrs, Kids, Tree};
