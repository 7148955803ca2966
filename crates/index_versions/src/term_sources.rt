ghost use Rattle.std.specs.Prelude.{◌≡◌, ◌+◌, ◌-◌, ◌^◌, ◌++◌, ◌∷◌, [], min, true, length, map, OnErr, OnOk};
ghost use Rattle.std.specs.List.{All, list_any, sum_by};
ghost use Rattle.ft_base.specs.Lists.{is_empty};
ghost use Rattle.index_meaning.specs.Documents.{has_document};
ghost use Rattle.index_meaning.specs.Index.{document_count};
ghost use Rattle.index_versions.specs.FirstPlaces.{soonest};
ghost use Rattle.index_versions.specs.Terms.{aimed_at, first_in};
ghost use Rattle.index_versions.specs.Versions.{stands_in, term_at};
ghost use Rattle.text_forms.specs.Forms.{key_of};

use crate::first_places::sooner;
use crate::term_cursor::TermCursor;
use crate::term_source::TermSource;
use ft_base::{DocId, Memory, Span, Steps};
use std::alloc::Global;
use std::marker::Model;
use std::sync::ledger::Ledger;

/// Terms of a version, as those whose words pass a test.
#[derive(Drop)]
pub struct TermSources<'v> {
    sources: Vec<TermSource<'v>>,
}

impl<'v> Model for TermSources<'v> {
    ghost use Rattle.std.specs.Prelude.{List};
    ghost use Rattle.index_versions.specs.Terms.{VersionTerm};

    ghost Value = { List VersionTerm };

    ghost view = { λ inside. inside.sources.items };
}

impl<'v> TermSources<'v> {
    /// No terms.
    pub fn new(alloc: Global) -> TermSources<'v>
        ensures { result ≡ [] }
    {
        TermSources {
            sources: Vec::new(alloc),
        }
    }

    /// How many there are.
    pub fn len(&self) -> usize
        ensures { result ≡ length self.now }
    {
        self.sources.len()
    }

    /// Whether there is none.
    pub fn is_empty(&self) -> bool
        ensures { result ≡ is_empty self.now }
    {
        self.sources.is_empty()
    }

    /// Puts one after the others.
    pub fn push(&mut self, source: TermSource<'v>) -> Result<(), Memory>
        ensures ok { OnOk result (self.new ≡ self.old ++ source.entry ∷ []) }
        ensures err { OnErr result (self.new ≡ self.old) }
    {
        self.sources.push(source)?;
        Ok(())
    }

    /// In how many documents they stand; a document counts once for each of them. What is more than the number can hold is the most that it holds.
    pub fn document_count(&self) -> u64
        ensures { result ≡ min (sum_by (λ source. document_count key_of (term_at source.term source.version) source.version) self.now) (2 ^ 64 - 1) }
    {
        count_all(&self.sources)
    }

    /// The first place of one of them in the span of the document, and `None` where none has one there.
    pub fn first_in(&self, doc: DocId, span: Span) -> Option<u32>
        ensures { result ≡ soonest (map (first_in doc.0 span) self.now) }
    {
        first_of(&self.sources, doc, span)
    }

    /// What `first_in` says, sought as by `TermSource::seek_in`: who asks for one span of a document after the other finds each soon.
    pub fn seek_in(&mut self, doc: DocId, span: Span) -> Option<u32>
        ensures says { result ≡ soonest (map (first_in doc.0 span) self.old) }
        ensures same { self.new ≡ self.old }
    {
        seek_first(&mut self.sources, doc, span)
    }

    /// Looks each of them up in the document, as `TermSource::look_up` does: who asks much of one document looks each term up
    /// there once. Whether one of them stands there.
    pub fn look_up(&mut self, doc: DocId) -> bool
        ensures says { result ≡ list_any (λ source. stands_in source.term doc.0 source.version) self.old }
        ensures same { self.new ≡ self.old }
    {
        look_all_up(&mut self.sources, doc)
    }

    /// Aims each of the cursors at the places of the term of its number, as `TermSource::aim` does.
    pub fn aim<L: Ledger>(
        &mut self,
        cursors: &mut Vec<TermCursor<'v>>,
        doc: DocId,
        span: Span,
        steps: &mut Steps<L>,
    )
        requires sized { length cursors.old.items ≡ length self.old }
        requires there { All (λ source. has_document doc.0 source.version ≡ true) self.old }
        ensures aimed { cursors.new.items ≡ map (aimed_at doc.0 span) self.old }
        ensures same { self.new ≡ self.old }
        ensures counted { steps.new ≡ steps.old + length self.old }
    {
        aim_all(&mut self.sources, cursors, doc, span, steps);
    }
}

fn count_all(sources: &Vec<TermSource<'_>>) -> u64
    ensures { result ≡ min (sum_by (λ source. document_count key_of (term_at source.term source.version) source.version) sources.now.items) (2 ^ 64 - 1) }
{
    let mut documents: u64 = 0;
    for source in sources {
        documents = documents.saturating_add(source.document_count() as u64);
    }
    documents
}

fn first_of(sources: &Vec<TermSource<'_>>, doc: DocId, span: Span) -> Option<u32>
    ensures { result ≡ soonest (map (first_in doc.0 span) sources.now.items) }
{
    let mut first = None;
    for source in sources {
        first = sooner(first, source.first_in(doc, span));
    }
    first
}

fn seek_first(sources: &mut Vec<TermSource<'_>>, doc: DocId, span: Span) -> Option<u32>
    ensures says { result ≡ soonest (map (first_in doc.0 span) sources.old.items) }
    ensures same { sources.new.items ≡ sources.old.items }
{
    let mut first = None;
    for number in 0..sources.len() {
        first = sooner(first, sources[number].seek_in(doc, span));
    }
    first
}

fn look_all_up(sources: &mut Vec<TermSource<'_>>, doc: DocId) -> bool
    ensures says { result ≡ list_any (λ source. stands_in source.term doc.0 source.version) sources.old.items }
    ensures same { sources.new.items ≡ sources.old.items }
{
    let mut one = false;
    for number in 0..sources.len() {
        let stands = sources[number].look_up(doc);
        one = one || stands;
    }
    one
}

fn aim_all<'v, L: Ledger>(
    sources: &mut Vec<TermSource<'v>>,
    cursors: &mut Vec<TermCursor<'v>>,
    doc: DocId,
    span: Span,
    steps: &mut Steps<L>,
)
    requires sized { length cursors.old.items ≡ length sources.old.items }
    requires there { All (λ source. has_document doc.0 source.version ≡ true) sources.old.items }
    ensures aimed { cursors.new.items ≡ map (aimed_at doc.0 span) sources.old.items }
    ensures same { sources.new.items ≡ sources.old.items }
    ensures counted { steps.new ≡ steps.old + length sources.old.items }
{
    for number in 0..sources.len() {
        sources[number].aim(&mut cursors[number], doc, span, steps);
    }
}
