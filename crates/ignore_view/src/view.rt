ghost use Rattle.std.specs.Prelude.{◌≡◌, ◌≤◌, ◌<◌, ◌+◌, ◌^◌, ◌∷◌, [], length, map, true, IfOk, OnOk, None};
ghost use Rattle.std.specs.List.{flat_map};
ghost use Rattle.index_cursors.specs.SpanHits.{started};
ghost use Rattle.index_meaning.specs.Documents.{document_at, document_ids, document_of, has_document, leaf_of, numbered, token_count};
ghost use Rattle.index_phrases.specs.Phrases.{words_at};
ghost use Rattle.index_phrases.specs.Tokens.{IsText, span_tokens};
ghost use Rattle.ignore_view.specs.Holes.{tokens_without, whole_document};
ghost use Rattle.ignore_view.specs.steps.Kept.{changes, places_of};

use crate::Holes;
use crate::parts::kept_parts;
use crate::starts::kept_starts;
use ft_base::{Breaks, DocId, LeafId, Memory, Span, Steps};
use index_versions::{Version, WordHints, WordLeaf, WordLeaves};
use std::alloc::Global;
use std::sync::ledger::Ledger;
use text_list::TextList;

/// The version whose only document, of the same number, has the words of a span of the document that are in no hole, with sentences
/// and paragraphs of their own. Counts a row for each of them; where memory runs out, no more than that. It takes as long as there
/// are words in the span, and as the holes take to be sorted.
pub fn view_without<L: Ledger>(
    alloc: Global,
    version: &Version,
    doc: DocId,
    span: Span,
    holes: &Holes,
    rows: &mut Steps<L>,
) -> Result<Version, Memory>
    requires there { has_document doc.0 version.now ≡ true }
    requires inside { (1 ≤ span.from) × (span.from ≤ span.to) × (span.to ≤ token_count (document_at doc.0 version.now) + 1) }
    ensures alone { IfOk result (λ view. document_ids view ≡ doc.0 ∷ []) }
    ensures text { IfOk result (λ view. IsText (document_at doc.0 view) (tokens_without span holes.now (document_at doc.0 version.now))) }
    ensures tokens { IfOk result (λ view. span_tokens (whole_document (document_at doc.0 view)) (document_at doc.0 view)
        ≡ tokens_without span holes.now (document_at doc.0 version.now)) }
    ensures counted { OnOk result (rows.new ≡ rows.old + length (tokens_without span holes.now (document_at doc.0 version.now))) }
    ensures at_most { rows.new ≤ rows.old + length (tokens_without span holes.now (document_at doc.0 version.now)) }
{
    let parts = kept_parts(alloc, span, holes)?;
    let words = kept_words(alloc, version, doc, &parts)?;
    let breaks = kept_breaks(alloc, version, doc, &parts)?;
    view_of(alloc, doc, words, breaks, rows)
}

/// The words of the parts of the document, one part after the other.
fn kept_words(
    alloc: Global,
    version: &Version,
    doc: DocId,
    parts: &Vec<Span>,
) -> Result<TextList, Memory>
    requires { has_document doc.0 version.now ≡ true }
    ensures { IfOk result (λ words. words ≡ flat_map (λ part. words_at part (document_at doc.0 version.now)) parts.now.items) }
{
    let mut words = TextList::new(alloc);
    for part in parts {
        version.push_words(doc, *part, &mut words)?;
    }
    Ok(words)
}

/// Where sentences and paragraphs start among the words of the parts.
fn kept_breaks(
    alloc: Global,
    version: &Version,
    doc: DocId,
    parts: &Vec<Span>,
) -> Result<Breaks, Memory>
    requires there { has_document doc.0 version.now ≡ true }
    requires few { length (places_of parts.now.items) < 2 ^ 32 }
    ensures sentences { IfOk result (λ breaks. breaks.sentences ≡
        changes None 1 (map (started (document_at doc.0 version.now).sentences) (places_of parts.now.items))) }
    ensures paragraphs { IfOk result (λ breaks. breaks.paragraphs ≡
        changes None 1 (map (started (document_at doc.0 version.now).paragraphs) (places_of parts.now.items))) }
{
    let starts = version.starts(doc);
    let sentences = kept_starts(alloc, &starts.sentences, parts)?;
    let paragraphs = kept_starts(alloc, &starts.paragraphs, parts)?;
    Ok(Breaks {
        sentences,
        paragraphs,
    })
}

/// The version whose only document, of that number, has these words and breaks. Counts a row for each word.
fn view_of<L: Ledger>(
    alloc: Global,
    doc: DocId,
    words: TextList,
    breaks: Breaks,
    rows: &mut Steps<L>,
) -> Result<Version, Memory>
    ensures view { IfOk result (λ view. view ≡ numbered doc.0 (document_of (leaf_of 0 words ∷ []) breaks) ∷ []) }
    ensures counted { OnOk result (rows.new ≡ rows.old + length words) }
    ensures at_most { rows.new ≤ rows.old + length words }
{
    let leaves = one_leaf(alloc, words)?;
    let mut hints = WordHints::new(alloc);
    let mut view = Version::empty(alloc);
    match view.put_document(doc, &leaves, breaks, &mut hints, rows) {
        Ok(()) => {
            drop((leaves, hints));
            Ok(view)
        }
        Err(_) => {
            drop((leaves, hints, view));
            Err(Memory)
        }
    }
}

/// One leaf with these words.
fn one_leaf(alloc: Global, words: TextList) -> Result<WordLeaves, Memory>
    ensures { IfOk result (λ leaves. leaves ≡ leaf_of 0 words ∷ []) }
{
    let mut leaves = WordLeaves::new(alloc);
    leaves.push(WordLeaf::new(LeafId(0), words))?;
    Ok(leaves)
}
