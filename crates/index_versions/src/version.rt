ghost use Rattle.std.specs.Prelude.{◌≡◌, ◌<◌, [], length, slice_get, IfOk, Some};
ghost use Rattle.index_meaning.specs.Entries.{entry, found, key_count};
ghost use Rattle.index_meaning.specs.Index.{document_count};
ghost use Rattle.text_forms.specs.Forms.{key_of};
ghost use Rattle.index_versions.specs.Versions.{term_at, terms_of};

use crate::parts::Parts;
use crate::terms::{term_id, terms};
use ft_base::{Memory, Span};
use std::alloc::Global;
use std::marker::Model;
use term_dict::Term;

/// A version of a collection's index, which contracts see as the list of its documents, in the order of their numbers,
/// each with its leaves, their words, and its breaks. The terms are the words of all documents, each under its key, in
/// order.
#[derive(Drop)]
pub struct Version {
    pub(crate) alloc: Global,
    pub(crate) parts: Parts,
}

impl Model for Version {
    ghost use Rattle.std.specs.Prelude.{List};
    ghost use Rattle.index_meaning.specs.Documents.{Numbered};
    ghost use Rattle.index_versions.specs.steps.Sound.{IsSound, meaning};

    ghost Value = { List Numbered };

    ghost view = { λ inside. meaning inside.parts };

    ghost invariant = { λ inside. IsSound inside.parts };
}

impl Version {
    /// The version without documents.
    pub fn empty(alloc: Global) -> Version
        ensures { result ≡ [] }
    {
        Version {
            alloc,
            parts: Parts::empty(alloc),
        }
    }

    /// The same version once more. The two share their memory, and neither sees a change to the other.
    pub fn clone_version(&self) -> Result<Version, Memory>
        ensures { IfOk result (λ clone. clone ≡ self.now) }
    {
        let parts = self.parts.copy()?;
        Ok(Version {
            alloc: self.alloc,
            parts,
        })
    }

    /// The numbers of the terms with that key, and `None` exactly where there are none.
    pub fn find_term(&self, key: &str) -> Option<Span>
        ensures { result ≡ found key.now (terms_of self.now) }
    {
        terms(&self.parts).find(key)
    }

    /// The term of that number, counted from 0.
    pub fn term(&self, number: usize) -> Term<'_>
        requires { number < length (terms_of self.now) }
        ensures { entry result.key.now result.word.now ≡ term_at number self.now }
    {
        terms(&self.parts).term(number)
    }

    /// How many terms there are.
    pub fn term_count(&self) -> usize
        ensures { result ≡ length (terms_of self.now) }
    {
        terms(&self.parts).len()
    }

    /// How many keys the terms have.
    pub fn key_count(&self) -> usize
        ensures { result ≡ key_count (terms_of self.now) }
    {
        terms(&self.parts).keys()
    }

    /// How many of the documents have the term of that number, counted from 0.
    pub fn document_count(&self, term: usize) -> u32
        requires { term < length (terms_of self.now) }
        ensures { result ≡ document_count key_of (term_at term self.now) self.now }
    {
        let id = term_id(&self.parts, term);
        self.parts.counts.count(id)
    }
}
