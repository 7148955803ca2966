//! What every crate of the search engine shares: the answer for want of memory, lists and lines that contracts see
//! as plain lists, a counter of steps that takes no bytes, the limits of a session, and the plain types of full-text
//! queries: words with their options and filters, tokens, hits, Matches and faults.
#![tactic(auto)]

mod characters;
pub mod examples;
mod fault;
mod filter;
mod first_words;
mod hit;
mod hits;
mod ids;
mod items;
pub mod laws;
mod letters;
mod limits;
mod line;
mod memory;
mod options;
mod places;
mod range;
mod span;
mod steps;
mod token;
mod unit;
mod words;

pub use characters::{is_char, is_name_char, is_name_start, is_space};
pub use fault::{ListFault, QueryFault};
pub use filter::Filter;
pub use first_words::FirstWords;
pub use hit::{Hit, Match};
pub use hits::Hits;
pub use ids::{DocId, LeafId, NodeRef};
pub use items::Items;
pub use letters::{begins_with, digit_run, is_digit, letters_of, number_of, text_of};
pub use limits::{
    MAX_DEPTH, MAX_DOCUMENTS, MAX_FILTERS, MAX_LINE_BYTES, MAX_LISTS, MAX_MARKS, MAX_NAME_BYTES,
    MAX_NODES, MAX_NUMBER, MAX_OPEN, MAX_PHRASES, MAX_PIECE_BYTES, MAX_SESSION_BYTES, MAX_TOKENS,
};
pub use line::Line;
pub use memory::Memory;
pub use options::{Case, Options, StopChoice, StopSource, StopTerm, ThesaurusChoice, ThesaurusUse};
pub use places::{Breaks, Places};
pub use range::Range;
pub use span::Span;
pub use steps::Steps;
pub use token::Token;
pub use unit::TextUnit as Unit;
pub use words::{Mode, Words};

/// A list of bytes.
pub type Bytes = Items<u8>;

/// A list of lines.
pub type Lines = Items<Line>;

/// The terms of a stop word option.
pub type StopTerms = Items<StopTerm>;

/// The choices of a thesaurus option.
pub type ThesaurusUses = Items<ThesaurusUse>;
