ghost use Rattle.std.specs.Prelude.{◌≡◌, ◌<◌, ◌+◌, [], cond, false, true, length, option_map, IsFalse, IsTrue};
ghost use Rattle.ft_base.specs.Hits.{hit_at, hit_place};
ghost use Rattle.index_cursors.specs.SpanHits.{hits_in};
ghost use Rattle.index_meaning.specs.Documents.{has_document};
ghost use Rattle.index_meaning.specs.Index.{document_count};
ghost use Rattle.index_versions.specs.Terms.{aimed_at, first_in};
ghost use Rattle.index_versions.specs.Versions.{stands_in, term_at, terms_of};
ghost use Rattle.text_forms.specs.Forms.{key_of};
ghost use Rattle.index_versions.specs.steps.Found.{IsFound, IsKept};

use crate::held::HeldDocument;
use crate::term_cursor::TermCursor;
use crate::version::Version;
use ft_base::{DocId, Span, Steps};
use index_cursors::{BreakView, first_word, first_word_near};
use index_document::TermPlaces;
use index_groups::Groups;
use std::marker::Model;
use std::sync::ledger::Ledger;

/// A document in which a term was looked up.
#[derive(Drop)]
pub(crate) struct FoundTerm<'v> {
    pub(crate) doc: DocId,
    pub(crate) held: &'v HeldDocument,
    /// The places of the term there.
    pub(crate) places: TermPlaces<'v>,
    /// Whether the term stands in the document.
    pub(crate) stands: bool,
    /// How many places are before the span that was sought last: where to look first for the next one.
    pub(crate) near: usize,
}

impl<'v> FoundTerm<'v> {
    /// Aims the cursor at the places of the term in the span, and counts one step.
    fn aim<L: Ledger>(&self, cursor: &mut TermCursor<'v>, span: Span, steps: &mut Steps<L>)
        ensures aimed { cursor.new ≡ hit_place (cond self.now.stands
            (hits_in self.now.held.now.breaks span self.now.places) []) 0 }
        ensures counted { steps.new ≡ steps.old + 1 }
    {
        let held = self.held;
        if self.stands {
            let places = self.places.share();
            cursor.aim(places, BreakView::new(held.breaks()), span, steps);
        } else {
            cursor.empty(steps);
        }
    }

    /// The first place of the term in the span, and `None` where it has none there.
    fn first_in(&self, span: Span) -> Option<u32>
        ensures { result ≡ option_map (λ hit. hit.from) (hit_at (hit_place (cond self.now.stands
            (hits_in self.now.held.now.breaks span self.now.places) []) 0)) }
    {
        if !self.stands {
            return None;
        }
        first_word(&self.places, span)
    }

    /// The same, searched on from the span that was sought last.
    fn seek_in(&mut self, span: Span) -> Option<u32>
        ensures says { result ≡ option_map (λ hit. hit.from) (hit_at (hit_place (cond self.old.stands
            (hits_in self.old.held.now.breaks span self.old.places) []) 0)) }
        ensures same { self.new ≡
            record { doc = self.old.doc; held = self.old.held; places = self.old.places; stands = self.old.stands; near = self.new.near } }
    {
        if !self.stands {
            return None;
        }
        first_word_near(&self.places, &mut self.near, span)
    }
}

/// A term of a version, at whose hits cursors are aimed. Contracts see the version and the term's number.
///
/// It keeps where the term stands in the document that was looked up or aimed at last: who goes through the spans of one
/// document after the other looks each document up once. A document of a group in which the term cannot stand isn't looked at.
#[derive(Drop)]
pub struct TermSource<'v> {
    version: &'v Version,
    term: usize,
    // In which groups of documents the term may stand.
    groups: Groups,
    found: Option<FoundTerm<'v>>,
    // How many numbers were left out before the document that was found last: as many likely are before the next one.
    left_out: usize,
}

impl<'v> Model for TermSource<'v> {
    ghost use Rattle.std.specs.Prelude.{◌<◌, length};
    ghost use Rattle.index_versions.specs.Terms.{VersionTerm, version_term};
    ghost use Rattle.index_versions.specs.Versions.{terms_of};
    ghost use Rattle.index_versions.specs.steps.Found.{AreGroupsOf, IsFound};

    ghost Value = { VersionTerm };

    ghost view = { λ inside. version_term inside.version.now inside.term };

    ghost invariant = { λ inside. (inside.term < length (terms_of inside.version.now))
        × IsFound inside.version.now inside.term inside.found × AreGroupsOf inside.version.now inside.term inside.groups };
}

impl<'v> TermSource<'v> {
    ghost use Rattle.index_versions.specs.Terms.{version_term};

    /// The term of that number, counted from 0. Nothing is looked up yet.
    pub fn new(version: &'v Version, term: usize) -> TermSource<'v>
        requires { term < length (terms_of version.now) }
        ensures { result ≡ version_term version.now term }
    {
        TermSource {
            version,
            term,
            groups: version.groups(term),
            found: None,
            left_out: 0,
        }
    }

    /// The first place of the term in the span of the document, and `None` where it has none there. In a document that isn't
    /// there no term stands. It searches the places from a guess on, by steps that double.
    pub fn first_in(&self, doc: DocId, span: Span) -> Option<u32>
        ensures { result ≡ first_in doc.0 span self.now }
    {
        if !self.may_stand(doc) {
            return None;
        }
        if let Some(found) = &self.found {
            if found.doc.0 == doc.0 {
                return found.first_in(span);
            }
        }
        let version = self.version;
        let mut left_out = self.left_out;
        match version.find(self.term, doc, &mut left_out) {
            Some(found) => found.first_in(span),
            None => None,
        }
    }

    /// How many of the documents have the term.
    pub fn document_count(&self) -> u32
        ensures { result ≡ document_count key_of (term_at self.now.term self.now.version) self.now.version }
    {
        let version = self.version;
        version.document_count(self.term)
    }

    /// Looks the term up in the document and keeps what it finds, unless that is kept: who asks much of one document looks
    /// each term up there once, and `first_in` finds it kept. Whether the term stands there; in a document that isn't there it
    /// doesn't.
    pub fn look_up(&mut self, doc: DocId) -> bool
        ensures says { result ≡ stands_in self.old.term doc.0 self.old.version }
        ensures same { self.new ≡ self.old }
    {
        if !self.may_stand(doc) {
            return false;
        }
        if !keep(
            &mut self.found,
            &mut self.left_out,
            self.version,
            self.term,
            doc,
        ) {
            return false;
        }
        match &self.found {
            Some(found) => found.stands,
            None => false,
        }
    }

    /// What `first_in` says. The term is looked up in the document once, and there the search goes on from the span that was sought
    /// last, so that a later one is found at once.
    pub fn seek_in(&mut self, doc: DocId, span: Span) -> Option<u32>
        ensures says { result ≡ first_in doc.0 span self.old }
        ensures same { self.new ≡ self.old }
    {
        if !self.may_stand(doc) {
            return None;
        }
        if !keep(
            &mut self.found,
            &mut self.left_out,
            self.version,
            self.term,
            doc,
        ) {
            return None;
        }
        match &mut self.found {
            Some(found) => found.seek_in(span),
            None => None,
        }
    }

    /// Aims the cursor at the places of the term in the span of the document, at the first of them, and counts one step. In
    /// the document that was asked last it searches on from where the cursor stands, so that a later span is found at once.
    pub fn aim<L: Ledger>(
        &mut self,
        cursor: &mut TermCursor<'v>,
        doc: DocId,
        span: Span,
        steps: &mut Steps<L>,
    )
        requires { has_document doc.0 self.old.version ≡ true }
        ensures aimed { cursor.new ≡ aimed_at doc.0 span self.old }
        ensures same { self.new ≡ self.old }
        ensures counted { steps.new ≡ steps.old + 1 }
    {
        if !self.may_stand(doc) {
            cursor.empty(steps);
            return;
        }
        let _there = keep(
            &mut self.found,
            &mut self.left_out,
            self.version,
            self.term,
            doc,
        );
        if let Some(found) = &self.found {
            found.aim(cursor, span, steps);
        }
    }

    /// Whether the term may stand in the document, by the document's group alone.
    fn may_stand(&self, doc: DocId) -> bool
        ensures { IsFalse result → stands_in self.now.term doc.0 self.now.version ≡ false }
    {
        self.groups.may_have(doc)
    }
}

/// Looks the term up in the document where it isn't kept what was found there. Whether the document is there.
fn keep<'v>(
    found: &mut Option<FoundTerm<'v>>,
    left_out: &mut usize,
    version: &'v Version,
    term: usize,
    doc: DocId,
) -> bool
    requires term { term < length (terms_of version.now) }
    requires found { IsFound version.now term found.old }
    ensures there { IsFalse result → has_document doc.0 version.now ≡ false }
    ensures found { IsFound version.now term found.new }
    ensures kept { IsTrue result → IsKept doc.0 found.new }
{
    if let Some(found) = &*found {
        if found.doc.0 == doc.0 {
            return true;
        }
    }
    match version.find(term, doc, left_out) {
        Some(other) => {
            *found = Some(other);
            true
        }
        None => false,
    }
}
