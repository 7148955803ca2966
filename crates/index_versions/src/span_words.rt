//! The words of a span of a document, one after the other, and where its sentences and paragraphs start.
ghost use Rattle.std.specs.Prelude.{◌≡◌, ◌-◌, ◌++◌, map, slice_range, true, OnOk};
ghost use Rattle.index_meaning.specs.Documents.{breaks_of, document_at, has_document, words_of};
ghost use Rattle.index_versions.specs.steps.Held.{word_of};

use crate::reading::held;
use crate::version::Version;
use ft_base::{Breaks, DocId, Memory, Span};
use term_dict::TermDict;
use text_list::TextList;

impl Version {
    /// Puts the words of a span of the document after the others, in order. It takes as long as there are words in the span: the
    /// first of them is found by halves. Where memory runs out, the first ones of them may be there.
    pub fn push_words(&self, doc: DocId, span: Span, words: &mut TextList) -> Result<(), Memory>
        requires { has_document doc.0 self.now ≡ true }
        ensures { OnOk result (words.new ≡ words.old ++ slice_range (words_of (document_at doc.0 self.now)) (span.from - 1) (span.to - 1)) }
    {
        let mut ids = Vec::new(self.alloc);
        let from = span.from.saturating_sub(1) as usize;
        let to = span.to.saturating_sub(1) as usize;
        held(&self.parts, doc)
            .index()
            .push_terms(from, to, &mut ids)?;
        push_named(&self.parts.dictionary, &ids, words)
    }

    /// Where the sentences and the paragraphs of the document start.
    pub fn starts(&self, doc: DocId) -> &Breaks
        requires { has_document doc.0 self.now ≡ true }
        ensures { result.now ≡ breaks_of (document_at doc.0 self.now) }
    {
        held(&self.parts, doc).breaks()
    }
}

/// Puts the words that the ids name after the others.
fn push_named(dictionary: &TermDict, ids: &Vec<u32>, words: &mut TextList) -> Result<(), Memory>
    ensures { OnOk result (words.new ≡ words.old ++ map (word_of dictionary.now.given) ids.now.items) }
{
    for id in ids {
        words.push(word_of(dictionary, *id))?;
    }
    Ok(())
}

/// The word that the id names, and the empty text where the id names none.
pub(crate) fn word_of(dictionary: &TermDict, id: u32) -> &str
    ensures { result.now ≡ word_of dictionary.now.given id }
{
    if id as usize >= dictionary.given_count() {
        return "";
    }
    dictionary.entry(id).word
}
