use ft_base::{DocId, Span};
use index_cursors::BreakView;

/// Where a phrase is aimed: a span of a document, and the breaks of the document.
#[derive(Clone, Copy)]
pub(crate) struct Target<'v> {
    pub(crate) doc: DocId,
    pub(crate) span: Span,
    pub(crate) breaks: BreakView<'v>,
}
