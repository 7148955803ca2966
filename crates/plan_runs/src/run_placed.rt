use crate::run_node::RunGroup;
use index_phrases::WordTerms;
use spot_merges::{Edge, Outside};

/// Phrases that have to stand somewhere, opened over a version; of each phrase all variants.
#[derive(Drop)]
pub(crate) enum RunPlaced<'v> {
    /// One, at an edge of the text.
    AtEdge(EdgePhrase<'v>),
    /// One, outside another one.
    Apart(ApartPhrases<'v>),
}

/// A phrase that has to stand at that edge of the text: what the words of each variant may be.
#[derive(Drop)]
pub(crate) struct EdgePhrase<'v> {
    pub(crate) edge: Edge,
    pub(crate) variants: Vec<Vec<WordTerms<'v>>>,
}

/// A phrase, the left one, that has to stand so outside the right one.
#[derive(Drop)]
pub(crate) struct ApartPhrases<'v> {
    pub(crate) outside: Outside,
    pub(crate) left: RunGroup<'v>,
    pub(crate) right: RunGroup<'v>,
}
