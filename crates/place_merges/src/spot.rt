/// Where some words of a text stand, one after the other.
#[derive(Clone, Copy)]
pub struct Spot {
    /// The position of the first word, from 1.
    pub place: u32,
    /// How many words there are.
    pub words: u32,
}
