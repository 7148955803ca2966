/// Phrases that are joined by `ftand` and numbered one after the other.
#[derive(Clone, Copy)]
pub struct Joined {
    /// The number of the first phrase.
    pub first: u32,
    /// The number of the last phrase.
    pub last: u32,
    /// Whether each variant of each phrase is one word, and not any word.
    pub are_words: bool,
}
