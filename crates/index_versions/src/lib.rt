//! The index of a collection of documents as a value: a version. A version that is cloned shares its memory with the
//! clone, and neither sees a change to the other.
//!
//! `version` is the type with its terms, `reading` has the calls that read a document, `changing` those that change one.
//! `term_source` and `term_sources` aim cursors at the hits of terms, which `term_cursor` has, and tell the first place of a span
//! (`first_places`). `span_words` tells the words of a span in order.
//! `lent_words` lends them. `word_leaf` is a text that comes in. Inside, `parts` is what a version is made of, `held` one of its documents,
//! `documents` finds one, and `terms` has the terms and their ids.
//! `words` makes words into ids, `hints` says where to look for one first, `leaves` puts leaves in and takes them out, `exchange`
//! puts a document in the place of another, and `changes` keeps the dictionary, the counts and the groups with it.
//!
//! Of each term it is known in which groups of documents it may stand. A term is looked up in the documents of these groups only, so
//! that a rare one is found without a look at most of the other documents.
#![tactic(auto)]

mod changes;
mod changing;
mod documents;
pub mod examples;
mod exchange;
mod first_places;
mod held;
mod hints;
pub mod laws;
mod leaves;
mod lent_words;
mod parts;
mod reading;
mod span_words;
mod term_cursor;
mod term_source;
mod term_sources;
mod terms;
mod version;
mod word_leaf;
mod words;

pub use first_places::sooner;
pub use hints::WordHints;
pub use index_cursors::{BreakView, Cursor, Every};
pub use term_cursor::TermCursor;
pub use term_dict::Term;
pub use term_source::TermSource;
pub use term_sources::TermSources;
pub use version::Version;
pub use word_leaf::WordLeaf;

/// A list of leaves with their words.
pub type WordLeaves = ft_base::Items<WordLeaf>;
