//! The words of a span of a document, lent.
ghost use Rattle.std.specs.Prelude.{◌≡◌, ◌-◌, ◌++◌, map, slice_range, true, OnOk};
ghost use Rattle.index_meaning.specs.Documents.{document_at, has_document, words_of};
ghost use Rattle.index_versions.specs.steps.Held.{word_of};

use crate::reading::held;
use crate::span_words::word_of;
use crate::version::Version;
use ft_base::{DocId, Memory, Span};
use term_dict::TermDict;

impl Version {
    /// Puts the words of a span of the document after the others, in order. None of them is copied: they are those of the version's
    /// terms. Where memory runs out, the first ones of them may be there.
    pub fn lend_words<'v>(
        &'v self,
        doc: DocId,
        span: Span,
        words: &mut Vec<&'v str>,
    ) -> Result<(), Memory>
        requires { has_document doc.0 self.now ≡ true }
        ensures { OnOk result (map (λ word. word.now) words.new.items
            ≡ map (λ word. word.now) words.old.items ++ slice_range (words_of (document_at doc.0 self.now)) (span.from - 1) (span.to - 1)) }
    {
        let mut ids = Vec::new(self.alloc);
        let from = span.from.saturating_sub(1) as usize;
        let to = span.to.saturating_sub(1) as usize;
        held(&self.parts, doc)
            .index()
            .push_terms(from, to, &mut ids)?;
        lend_named(&self.parts.dictionary, ids.as_slice(), words)
    }
}

/// Puts the words that the ids name after the others.
fn lend_named<'v>(
    dictionary: &'v TermDict,
    ids: &[u32],
    words: &mut Vec<&'v str>,
) -> Result<(), Memory>
    ensures { OnOk result (map (λ word. word.now) words.new.items ≡ map (λ word. word.now) words.old.items ++ map (word_of dictionary.now.given) ids.now) }
{
    words.reserve(ids.len())?;
    for id in ids {
        words.push(word_of(dictionary, *id))?;
    }
    Ok(())
}
