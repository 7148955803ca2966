//! The places of phrases, found by going through the hits of their words.
//!
//! A phrase has variants, and a variant has items, one for each of its words: any word, or a word at which one of some
//! sources has a hit. `count_places` says at how many places of a span one of the variants stands, without a look at the
//! words of the text. `next_spot` gives the next place where one does, and how many words it has; `next_lead` is one step on the way there,
//! for who needs no spot beyond some place.
//!
//! Each search begins at a place and ends there, or leads to a later place before which there is nothing to be
//! found: a source leads to its next hit (`source`), a variant to where its leading item leads, or else the first of its
//! items that doesn't fit (`variant`), and several sources or variants to the first of the places of each. So where the
//! rarest word leads, a frequent one is sought only at the places of the rare one. The sources go forward only, and no
//! memory is taken.
#![tactic(auto)]

mod counting;
pub mod examples;
mod finding;
mod item;
pub mod laws;
mod source;
mod spot;
mod variant;

pub use counting::count_places;
pub use finding::{next_lead, next_spot};
pub use item::{Item, Variant};
pub use source::lead_of_sources;
pub use spot::Spot;
