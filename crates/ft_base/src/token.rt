use crate::Line;

/// A word of a text, with the numbers of its sentence and its paragraph, from 1 (the standard's TokenInfo).
#[derive(Drop)]
pub struct Token {
    pub word: Line,
    pub sentence: u32,
    pub paragraph: u32,
}
