ghost use Rattle.std.specs.Prelude.{◌≡◌, ◌+◌, ◌<◌, true, is_some, length, slice_index, IfSome, IsTrue};
ghost use Rattle.ft_base.specs.Hits.{hit_place};
ghost use Rattle.ft_base.specs.Places.{is_ascending};
ghost use Rattle.index_meaning.specs.Documents.{breaks_of, document_at, document_ids, has_document, has_leaf, leaf_ids, token_count};
ghost use Rattle.index_meaning.specs.Postings.{places};
ghost use Rattle.index_versions.specs.Versions.{all_hits, stands_in, term_at, term_hits, terms_of};
ghost use Rattle.index_versions.specs.steps.Found.{AreGroupsOf, IsFoundTerm};
ghost use Rattle.index_versions.specs.steps.Held.{document_under, held_at};
ghost use Rattle.index_versions.specs.steps.Sound.{IsSound, meaning};

use crate::documents::{document, has_document, place_near, stands_at};
use crate::held::HeldDocument;
use crate::parts::Parts;
use crate::term_source::FoundTerm;
use crate::terms::term_id;
use crate::version::Version;
use ft_base::{DocId, LeafId, Span, Steps};
use index_cursors::{BreakView, Cursor, Every};
use index_document::TermPlaces;
use index_groups::Groups;
use std::sync::ledger::Ledger;

impl Version {
    /// Whether the document is there. Documents are in the order of their numbers, each once.
    pub fn has_doc(&self, doc: DocId) -> bool
        ensures there { result ≡ has_document doc.0 self.now }
        ensures ordered { IsTrue (is_ascending (document_ids self.now)) }
    {
        has_document(&self.parts.documents, doc)
    }

    /// How many words the document has.
    pub fn token_count(&self, doc: DocId) -> u32
        requires { has_document doc.0 self.now ≡ true }
        ensures { result ≡ token_count (document_at doc.0 self.now) }
    {
        held(&self.parts, doc).index().token_count() as u32
    }

    /// How many leaves the document has.
    pub fn leaf_count(&self, doc: DocId) -> usize
        requires { has_document doc.0 self.now ≡ true }
        ensures { result ≡ length (document_at doc.0 self.now).leaves }
    {
        held(&self.parts, doc).index().leaf_count()
    }

    /// The leaf of that number in the order of the document, counted from 0.
    pub fn leaf(&self, doc: DocId, number: usize) -> LeafId
        requires there { has_document doc.0 self.now ≡ true }
        requires number { number < length (document_at doc.0 self.now).leaves }
        ensures leaf { result.0 ≡ slice_index (leaf_ids (document_at doc.0 self.now).leaves) number }
        ensures there { has_leaf result.0 (document_at doc.0 self.now) ≡ true }
    {
        held(&self.parts, doc).index().leaf(number)
    }

    /// Where the sentences and the paragraphs of the document start.
    pub fn breaks(&self, doc: DocId) -> BreakView<'_>
        requires { has_document doc.0 self.now ≡ true }
        ensures { result.breaks.now ≡ breaks_of (document_at doc.0 self.now) }
    {
        BreakView::new(held(&self.parts, doc).breaks())
    }

    /// Whether the term of that number, counted from 0, stands in the document. In one that isn't there no term does.
    pub fn has_term(&self, doc: DocId, term: usize) -> bool
        requires { term < length (terms_of self.now) }
        ensures { result ≡ stands_in term doc.0 self.now }
    {
        if !self.has_doc(doc) {
            return false;
        }
        let (places, _breaks) = self.places(term, doc);
        places.len() > 0
    }

    /// In which groups of documents the term of that number, counted from 0, may stand: in a document of another group it doesn't.
    pub(crate) fn groups(&self, term: usize) -> Groups
        requires { term < length (terms_of self.now) }
        ensures { AreGroupsOf self.now term result }
    {
        let id = term_id(&self.parts, term);
        self.parts.groups.groups_of(id)
    }

    /// A cursor over the places of the term of that number in a span of the document, at the first of them. Counts one
    /// step, for which it searches the places of the term from a guess on, by steps that double.
    pub fn cursor<'v, L: Ledger>(
        &'v self,
        term: usize,
        doc: DocId,
        span: Span,
        steps: &mut Steps<L>,
    ) -> Cursor<'v>
        requires term { term < length (terms_of self.now) }
        requires there { has_document doc.0 self.now ≡ true }
        ensures cursor { result ≡ hit_place (term_hits term doc.0 span self.now) 0 }
        ensures counted { steps.new ≡ steps.old + 1 }
    {
        let (places, breaks) = self.places(term, doc);
        Cursor::new(places, breaks, span, steps)
    }

    /// All places of a span of the document, at the first of them. Counts one step.
    pub fn every<'v, L: Ledger>(&'v self, doc: DocId, span: Span, steps: &mut Steps<L>) -> Every<'v>
        requires { has_document doc.0 self.now ≡ true }
        ensures list { result ≡ hit_place (all_hits doc.0 span self.now) 0 }
        ensures counted { steps.new ≡ steps.old + 1 }
    {
        Every::new(self.breaks(doc), span, steps)
    }

    /// Where the term of that number stands in the document, and the breaks of the document.
    fn places(&self, term: usize, doc: DocId) -> (TermPlaces<'_>, BreakView<'_>)
        requires term { term < length (terms_of self.now) }
        requires there { has_document doc.0 self.now ≡ true }
        ensures places { result.0 ≡ places (term_at term self.now).word (document_at doc.0 self.now) }
        ensures breaks { result.1.breaks.now ≡ breaks_of (document_at doc.0 self.now) }
    {
        let held = held(&self.parts, doc);
        let places = held.index().places(term_id(&self.parts, term));
        (places, BreakView::new(held.breaks()))
    }

    /// The term of that number and the document, looked up; `None` exactly where the document isn't there. So many numbers are likely
    /// left out before the document, as `place_near` has it.
    pub(crate) fn find(
        &self,
        term: usize,
        doc: DocId,
        left_out: &mut usize,
    ) -> Option<FoundTerm<'_>>
        requires { term < length (terms_of self.now) }
        ensures there { is_some result ≡ has_document doc.0 self.now }
        ensures doc { IfSome result (λ found. found.doc ≡ doc) }
        ensures found { IfSome result (IsFoundTerm self.now term) }
    {
        let held = find_held(&self.parts, doc, left_out)?;
        let id = term_id(&self.parts, term);
        let places = held.index().places(id);
        let stands = !places.is_empty();
        Some(FoundTerm {
            doc,
            held,
            places,
            stands,
            near: 0,
        })
    }
}

/// The document of that number, with what it means.
pub(crate) fn held(parts: &Parts, doc: DocId) -> &HeldDocument
    requires sound { IsSound parts.now }
    requires there { has_document doc.0 (meaning parts.now) ≡ true }
    ensures held { result.now ≡ held_at doc.0 parts.now.documents }
    ensures meant { document_under parts.now.dictionary.given result.now ≡ document_at doc.0 (meaning parts.now) }
{
    document(&parts.documents, doc)
}

/// The document of that number, with what it means, and `None` exactly where there is none. So many numbers are likely left out before it.
fn find_held<'v>(parts: &'v Parts, doc: DocId, left_out: &mut usize) -> Option<&'v HeldDocument>
    requires { IsSound parts.now }
    ensures there { is_some result ≡ has_document doc.0 (meaning parts.now) }
    ensures held { IfSome result (λ held. held.now ≡ held_at doc.0 parts.now.documents) }
    ensures meant { IfSome result (λ held. document_under parts.now.dictionary.given held.now ≡ document_at doc.0 (meaning parts.now)) }
{
    let documents = &parts.documents;
    let at = place_near(documents, doc, left_out);
    if !stands_at(documents, at, doc) {
        return None;
    }
    Some(documents.get(at))
}
