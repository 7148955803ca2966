use count_merges::CountedItem;
use counted_shapes::Field;
use index_phrases::WordTerms;
use index_versions::TermCursor;

/// Words that are counted in one window, sentence or paragraph, opened over a version.
#[derive(Drop)]
pub(crate) struct RunCounts<'v> {
    /// In what they are counted.
    pub(crate) field: Field,
    /// What is counted, by terms.
    pub(crate) words: Vec<CountedTerms<'v>>,
    /// The same with cursors, for each of the terms one whose hits come in and one whose hits go out.
    pub(crate) items: Vec<CountedItem<TermCursor<'v>>>,
}

/// Phrases of which so many hits are asked for.
#[derive(Drop)]
pub(crate) struct CountedTerms<'v> {
    /// The least number of hits.
    pub(crate) least: u32,
    /// The greatest number of hits, if there is one.
    pub(crate) most: Option<u32>,
    /// The variants of each phrase, those of one length together.
    pub(crate) groups: Vec<TermGroup<'v>>,
}

/// Variants of one phrase that have the same number of words: what the words of each may be.
#[derive(Drop)]
pub(crate) struct TermGroup<'v> {
    pub(crate) words: u32,
    pub(crate) variants: Vec<Vec<WordTerms<'v>>>,
}
