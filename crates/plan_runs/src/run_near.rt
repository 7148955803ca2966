use crate::needs::Needs;
use index_phrases::PhraseCursor;
use phrase_merges::NearTree;

/// Phrases under windows and scopes, opened over a version: the hits of each variant of each phrase, and what the selection needs of a
/// document.
#[derive(Drop)]
pub(crate) struct RunNear<'v> {
    pub(crate) tree: NearTree<PhraseCursor<'v>>,
    pub(crate) needs: Needs<'v>,
}
