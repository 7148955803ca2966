ghost use Rattle.std.specs.Prelude.{◌≡◌, ◌≤◌, ◌+◌, true};
ghost use Rattle.index_meaning.specs.Documents.{document_at, has_document, token_count};

use ft_base::{DocId, Span};
use index_versions::Version;

/// Where a run is tested: a span of a document of a version.
#[derive(Drop)]
pub(crate) struct AskedPlace<'v> {
    pub(crate) version: &'v Version,
    pub(crate) doc: DocId,
    pub(crate) span: Span,
    ghost there: { has_document doc.0 version.now ≡ true },
    ghost first: { 1 ≤ span.from },
    ghost order: { span.from ≤ span.to },
    ghost last: { span.to ≤ token_count (document_at doc.0 version.now) + 1 },
}
