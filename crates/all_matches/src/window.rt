/// A window, from one number of a word, a sentence or a paragraph to another, which belongs to it.
///
/// Words, sentences and paragraphs count from 1. A window may begin before the text, at a number below 1, and end
/// after it.
#[derive(Clone, Copy, PartialEq, Eq)]
pub struct Window {
    pub from: i64,
    pub to: i64,
}
