//! The words of a text.
#![tactic(auto)]

mod words;

pub use words::{Piece, count_words, is_word, words_of};
