//! What is left of a span of a document where parts of it are ignored, as a version of the index: one document alone, whose words are
//! those of the span that are in no hole, with sentences and paragraphs of their own. So a selection is decided over it as over any
//! other version.
//!
//! `view` makes it. Inside, `parts` finds what is between the holes, and `starts` where sentences and paragraphs start in what is left.
#![tactic(auto)]

pub mod examples;
pub mod laws;
mod parts;
mod starts;
mod view;

pub use view::view_without;

/// Parts of a document that are ignored, in the document's places: in any order, and one may lie over another.
pub type Holes = ft_base::Items<ft_base::Span>;
