//! Documents in the order of their numbers, and where one of them is.
ghost use Rattle.std.specs.Prelude.{◌≡◌, ◌==◌, false, true, slice_get, IfOk};
ghost use Rattle.std.specs.Option.{option_map_or};
ghost use Rattle.ft_base.specs.Places.{is_ascending};
ghost use Rattle.index_document.specs.Terms.{has};
ghost use Rattle.index_cursors.specs.SpanHits.{below};
ghost use Rattle.index_versions.specs.steps.Held.{numbers, held_at};

use crate::held::HeldDocument;
use ft_base::{Breaks, DocId, Memory, Places};
use index_document::DocIndex;
use shared_list::SharedList;
use std::alloc::Global;

/// How many documents a block holds at most.
const BLOCK_DOCUMENTS: usize = 64;

/// Documents in the order of their numbers.
pub type Documents = SharedList<HeldDocument, BLOCK_DOCUMENTS>;

/// How many of the documents have a smaller number. As long as no number was left out, that is the number itself, at which is
/// looked first.
pub(crate) fn place_of(documents: &Documents, doc: DocId) -> usize
    requires { is_ascending (numbers documents.now) ≡ true }
    ensures { result ≡ below doc.0 (numbers documents.now) }
{
    let mut left_out = 0;
    place_near(documents, doc, &mut left_out)
}

/// The same, where so many numbers are likely left out before the document, which decides at which place is looked first, and nothing
/// else. Where another place is found, it says how many are.
pub(crate) fn place_near(documents: &Documents, doc: DocId, left_out: &mut usize) -> usize
    requires { is_ascending (numbers documents.now) ≡ true }
    ensures { result ≡ below doc.0 (numbers documents.now) }
{
    let number = doc.0 as usize;
    let likely = number.saturating_sub(*left_out);
    if stands_at(documents, likely, doc) {
        return likely;
    }
    let place = sought_place(documents, doc);
    *left_out = number.saturating_sub(place);
    place
}

/// The same, found by halves.
fn sought_place(documents: &Documents, doc: DocId) -> usize
    requires { is_ascending (numbers documents.now) ≡ true }
    ensures { result ≡ below doc.0 (numbers documents.now) }
{
    let mut low = 0;
    let mut high = documents.len();
    while low < high {
        let middle = low + (high - low) / 2;
        if documents.get(middle).doc().0 < doc.0 {
            low = middle + 1;
        } else {
            high = middle;
        }
    }
    low
}

/// Whether the document at that place has that number.
pub(crate) fn stands_at(documents: &Documents, at: usize, doc: DocId) -> bool
    ensures { result ≡ option_map_or (λ id. id == doc.0) (slice_get (numbers documents.now) at) false }
{
    if at >= documents.len() {
        return false;
    }
    documents.get(at).doc().0 == doc.0
}

/// Whether a document has that number.
pub(crate) fn has_document(documents: &Documents, doc: DocId) -> bool
    requires { is_ascending (numbers documents.now) ≡ true }
    ensures { result ≡ has doc.0 (numbers documents.now) }
{
    stands_at(documents, place_of(documents, doc), doc)
}

/// The document of that number.
pub(crate) fn document(documents: &Documents, doc: DocId) -> &HeldDocument
    requires ascending { is_ascending (numbers documents.now) ≡ true }
    requires there { has doc.0 (numbers documents.now) ≡ true }
    ensures { result.now ≡ held_at doc.0 documents.now }
{
    documents.get(place_of(documents, doc))
}

/// The document of that number, or one in which nothing is.
pub(crate) fn document_or_new(
    alloc: Global,
    documents: &Documents,
    doc: DocId,
) -> Result<HeldDocument, Memory>
    requires { is_ascending (numbers documents.now) ≡ true }
    ensures { IfOk result (λ held. held ≡ held_at doc.0 documents.now) }
{
    if has_document(documents, doc) {
        return document(documents, doc).share();
    }
    let breaks = Breaks {
        sentences: Places::new(alloc),
        paragraphs: Places::new(alloc),
    };
    let held = HeldDocument::new(alloc, DocIndex::empty(alloc, doc), breaks)?;
    Ok(held)
}
