use crate::needs::Needs;
use index_phrases::PhraseCursor;
use plan_kinds::PassKind;

/// Phrases whose hits have to stand like this, opened over a version: the hits of each variant of each phrase, and what the selection needs
/// of a document.
#[derive(Drop)]
pub(crate) struct RunHits<'v> {
    pub(crate) kind: PassKind,
    pub(crate) phrases: Vec<Vec<PhraseCursor<'v>>>,
    pub(crate) needs: Needs<'v>,
}
