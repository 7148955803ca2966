use crate::Items;

/// A place in a text where a phrase of a query stands (the standard's StringMatch).
///
/// Positions of words, sentences and paragraphs count from 1, and the last one belongs to the hit.
#[derive(Clone, Copy, PartialEq, Eq)]
pub struct Hit {
    /// The number of the phrase in its selection, from 1.
    pub query: u32,
    /// The first word.
    pub from: u32,
    /// The last word.
    pub to: u32,
    /// The sentence of the first word.
    pub sent_from: u32,
    /// The sentence of the last word.
    pub sent_to: u32,
    /// The paragraph of the first word.
    pub para_from: u32,
    /// The paragraph of the last word.
    pub para_to: u32,
    /// Whether every word from the first to the last is covered.
    pub whole: bool,
}

/// One way in which a text may satisfy a selection (the standard's Match): it needs all the includes
/// (StringIncludes), and no exclude (StringExclude) may be left.
#[derive(Drop)]
pub struct Match {
    pub includes: Items<Hit>,
    pub excludes: Items<Hit>,
}
