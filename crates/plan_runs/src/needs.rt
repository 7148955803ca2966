//! What a selection with filters or `not in` needs of a document.

use index_phrases::WordTerms;

/// In a span without this the selection has no Match.
#[cycle(needs)]
#[derive(Drop)]
pub(crate) enum Needs<'v> {
    Nothing,
    /// A phrase: the words of one of its variants, each by one of its terms.
    Phrase(Vec<Vec<WordTerms<'v>>>),
    /// One of two sides.
    OneOf(Box<NeededSides<'v>>),
    /// Both sides.
    AllOf(Box<NeededSides<'v>>),
}

#[cycle(needs)]
#[derive(Drop)]
pub(crate) struct NeededSides<'v> {
    pub(crate) left: Needs<'v>,
    pub(crate) right: Needs<'v>,
}
