use index_versions::{TermCursor, TermSources};
use plan_kinds::MergeKind;

/// Single words that have to stand near one another or in order, opened over a version: the terms of each, and a cursor for each of
/// the terms.
#[derive(Drop)]
pub(crate) struct RunMerge<'v> {
    pub(crate) kind: MergeKind,
    pub(crate) words: Vec<TermSources<'v>>,
    pub(crate) cursors: Vec<Vec<TermCursor<'v>>>,
}
