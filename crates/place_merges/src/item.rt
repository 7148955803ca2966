/// What one word of a variant of a phrase has to be.
#[derive(Drop)]
pub enum Item<H> {
    /// Any word.
    Any,
    /// A word at which one of the sources has a hit: the first word of the hit.
    Of(Vec<H>),
}

/// One of the lists of words that a phrase stands for.
#[derive(Drop)]
pub struct Variant<H> {
    /// What its words have to be.
    pub items: Vec<Item<H>>,
    /// The number of the item, from 0, that is asked first: best the one with the fewest hits. No answer depends on it.
    pub lead: usize,
    /// Whether the variant counts. It may be left out where it is known to stand nowhere; then none of its sources is moved.
    pub counts: bool,
}
