//! The terms of documents, as a dictionary has them.
ghost use Rattle.std.specs.Prelude.{◌≡◌, ◌<◌, ℕ, length};
ghost use Rattle.index_document.specs.Terms.{places_of};
ghost use Rattle.index_meaning.specs.Dictionaries.{entries};
ghost use Rattle.index_meaning.specs.Documents.{document_at};
ghost use Rattle.index_meaning.specs.Index.{document_count};
ghost use Rattle.index_meaning.specs.Postings.{places};
ghost use Rattle.text_forms.specs.Forms.{key_of};
ghost use Rattle.index_versions.specs.Versions.{term_at, terms_of};
ghost use Rattle.index_versions.specs.steps.Held.{documents_with, held_at};
ghost use Rattle.index_versions.specs.steps.Sound.{IsSound, meaning};

use crate::parts::Parts;
use term_dict::TermDict;

/// The dictionary, whose terms are those of the documents.
pub(crate) fn terms(parts: &Parts) -> &TermDict
    requires { IsSound parts.now }
    ensures { entries result.now.terms ≡ terms_of (meaning parts.now) }
{
    let dictionary = &parts.dictionary;
    let _count = dictionary.len();
    dictionary
}

/// The id of the term of that number, counted from 0. As many documents have it as have the term, and it stands where
/// the term stands.
pub(crate) fn term_id(parts: &Parts, number: usize) -> u32
    requires sound { IsSound parts.now }
    requires number { number < length (terms_of (meaning parts.now)) }
    ensures counted { documents_with result parts.now.documents ≡
        document_count key_of (term_at number (meaning parts.now)) (meaning parts.now) }
    ensures placed { (doc : ℕ) → places_of result (held_at doc parts.now.documents).index.leaves ≡
        places (term_at number (meaning parts.now)).word (document_at doc (meaning parts.now)) }
{
    let dictionary = &parts.dictionary;
    let _count = dictionary.len();
    dictionary.id(number)
}
