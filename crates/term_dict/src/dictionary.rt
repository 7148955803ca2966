ghost use Rattle.std.specs.Prelude.{◌≡◌, ◌<◌, [], ℕ, length, slice_get, true, false, Some, IfOk, OnErr, OnOk};
ghost use Rattle.std.specs.Ordering.{is_eq};
ghost use Rattle.index_meaning.specs.Entries.{Entry, entry, entry_cmp, has_entry, found, number_of, is_sorted};
ghost use Rattle.index_meaning.specs.Entries.{key_count, with_entry, without_entry};
ghost use Rattle.index_meaning.specs.Dictionaries.{entries, ids, id_of, are_apart, are_given, ids_below};
ghost use Rattle.index_meaning.specs.Dictionaries.{dictionary, with_new, without_term};

use crate::Term;
use crate::places::{Place, brought_keys, count_before, stands_at};
use crate::terms::Terms;
use ft_base::{Memory, Span};
use std::alloc::Global;
use std::marker::Model;

/// The terms of an index, in the order of their keys and with one key in that of their words, each with an id, which
/// names its entry for ever. A copy shares the blocks of the dictionary that it was made of; neither sees a change to
/// the other.
#[derive(Drop)]
pub struct TermDict {
    terms: Terms,
    keys: usize,
}

impl Model for TermDict {
    ghost use Rattle.index_meaning.specs.Dictionaries.{Dictionary};
    ghost use Rattle.term_dict.specs.Sound.{IsSound};

    ghost Value = { Dictionary };

    ghost view = { λ inside. inside.terms };

    ghost invariant = { λ inside. IsSound inside.terms.terms inside.keys inside.terms.given };
}

impl TermDict {
    /// The dictionary without terms.
    pub fn empty(alloc: Global) -> TermDict
        ensures { result ≡ dictionary [] [] }
    {
        TermDict {
            terms: Terms::new(alloc),
            keys: 0,
        }
    }

    /// The same dictionary once more; no term is copied.
    pub fn copy(&self) -> Result<TermDict, Memory>
        ensures { IfOk result (λ copy. copy ≡ self.now) }
    {
        let terms = self.terms.copy()?;
        Ok(TermDict {
            terms,
            keys: self.keys,
        })
    }

    /// How many terms there are. They are in order, each once; no two have the same id, and each id names its entry.
    pub fn len(&self) -> usize
        ensures count { result ≡ length self.now.terms }
        ensures sorted { is_sorted (entries self.now.terms) ≡ true }
        ensures apart { are_apart self.now.terms ≡ true }
        ensures below { ids_below (length self.now.given) self.now.terms ≡ true }
        ensures given { are_given self.now.given self.now.terms ≡ true }
    {
        self.terms.len()
    }

    /// How many keys the terms have.
    pub fn keys(&self) -> usize
        ensures { result ≡ key_count (entries self.now.terms) }
    {
        self.keys
    }

    /// The term of that number, counted from 0.
    pub fn term(&self, number: usize) -> Term<'_>
        requires { number < length self.now.terms }
        ensures { slice_get (entries self.now.terms) number ≡ Some (entry result.key.now result.word.now) }
    {
        let read = self.terms.entry(number);
        Term {
            key: read.key(),
            word: read.word(),
        }
    }

    /// The id of the term of that number, counted from 0.
    pub fn id(&self, number: usize) -> u32
        requires { number < length self.now.terms }
        ensures { slice_get (ids self.now.terms) number ≡ Some result }
    {
        self.terms.id(number)
    }

    /// How many ids were given: each number below is one.
    pub fn given_count(&self) -> usize
        ensures { result ≡ length self.now.given }
    {
        self.terms.given_count()
    }

    /// The term that got that id, also where it isn't there any more.
    pub fn entry(&self, id: u32) -> Term<'_>
        requires { id < length self.now.given }
        ensures { slice_get self.now.given id ≡ Some (entry result.key.now result.word.now) }
    {
        let read = self.terms.given_entry(id);
        Term {
            key: read.key(),
            word: read.word(),
        }
    }

    /// The numbers of the terms with that key, and `None` exactly where there are none.
    pub fn find(&self, key: &str) -> Option<Span>
        ensures { result ≡ found key.now (entries self.now.terms) }
    {
        let from = count_before(&self.terms, Place::AtKey, key, "");
        let to = count_before(&self.terms, Place::AfterKey, key, "");
        if from == to {
            return None;
        }
        Some(Span {
            from: from as u32,
            to: to as u32,
        })
    }

    /// The number of the term with that key and word, and `None` exactly where there is none.
    pub fn find_word(&self, key: &str, word: &str) -> Option<usize>
        ensures { result ≡ number_of (entry key.now word.now) (entries self.now.terms) }
    {
        let number = count_before(&self.terms, Place::AtEntry, key, word);
        if stands_at(&self.terms, number, key, word) {
            return Some(number);
        }
        None
    }

    /// The dictionary with that term, in the memory of this one, and the term's id. Nothing changes where it is there; a
    /// new one gets an id that none had before, and `Memory` is answered where there is none left. An id that was given
    /// names what it named. Where memory runs out, the dictionary is dropped.
    pub fn put(self, key: &str, word: &str) -> Result<(TermDict, u32), Memory>
        ensures becomes { IfOk result (λ put. put.0 ≡ with_new (entry key.now word.now) self) }
        ensures id { IfOk result (λ put. id_of (entry key.now word.now) put.0.terms ≡ Some put.1) }
        ensures listed { IfOk result (λ put. entries put.0.terms ≡ with_entry (entry key.now word.now) (entries self.terms)) }
        ensures kept { IfOk result (λ put. (e : Entry) → has_entry e (entries self.terms) ≡ true → id_of e put.0.terms ≡ id_of e self.terms) }
        ensures named { IfOk result (λ put. (id : ℕ) → id < length self.given → slice_get put.0.given id ≡ slice_get self.given id) }
    {
        let _ = &self.terms;
        match self.placed(key, word) {
            Ok(put) => Ok(put),
            Err(_) => Err(Memory),
        }
    }

    /// The same, where it is said in one clause what becomes of the dictionary.
    fn placed(self, key: &str, word: &str) -> Result<(TermDict, u32), Memory>
        ensures becomes { IfOk result (λ put. put.0 ≡ with_new (entry key.now word.now) self) }
        ensures id { IfOk result (λ put. id_of (entry key.now word.now) put.0.terms ≡ Some put.1) }
    {
        let number = count_before(&self.terms, Place::AtEntry, key, word);
        if stands_at(&self.terms, number, key, word) {
            let id = self.id(number);
            return Ok((self, id));
        }
        let keys = self.keys + brought_keys(&self.terms, number, key);
        match self.terms.put(number, key, word) {
            Ok((terms, id)) => Ok((TermDict { terms, keys }, id)),
            Err(_) => Err(Memory),
        }
    }

    /// Takes that term out, where it is there. Its id still names it and is not given again, so that it gets another one
    /// where it comes again. Where memory runs out, the dictionary stays as it was.
    pub fn take(&mut self, key: &str, word: &str) -> Result<(), Memory>
        ensures becomes { OnOk result (self.new ≡ without_term (entry key.now word.now) self.old) }
        ensures listed { OnOk result (entries self.new.terms ≡ without_entry (entry key.now word.now) (entries self.old.terms)) }
        ensures kept { OnOk result ((e : Entry) → is_eq (entry_cmp (entry key.now word.now) e) ≡ false → id_of e self.new.terms ≡ id_of e self.old.terms) }
        ensures err { OnErr result (self.new ≡ self.old) }
    {
        self.take_out(key, word)?;
        Ok(())
    }

    /// The same, where it is said in one clause what becomes of the dictionary.
    fn take_out(&mut self, key: &str, word: &str) -> Result<(), Memory>
        ensures ok { OnOk result (self.new ≡ without_term (entry key.now word.now) self.old) }
        ensures err { OnErr result (self.new ≡ self.old) }
    {
        let number = count_before(&self.terms, Place::AtEntry, key, word);
        if !stands_at(&self.terms, number, key, word) {
            return Ok(());
        }
        self.terms.take(number)?;
        self.keys -= brought_keys(&self.terms, number, key);
        Ok(())
    }

    /// The dictionary with that term, where this one stays as it is. Nothing changes where the term is there; a new one
    /// gets an id that none had before, and `Memory` is answered where there is none left. An id that was given names
    /// what it named.
    pub fn with(&self, key: &str, word: &str) -> Result<TermDict, Memory>
        ensures becomes { IfOk result (λ new. new ≡ with_new (entry key.now word.now) self.now) }
        ensures listed { IfOk result (λ new. entries new.terms ≡ with_entry (entry key.now word.now) (entries self.now.terms)) }
        ensures kept { IfOk result (λ new. (e : Entry) → has_entry e (entries self.now.terms) ≡ true → id_of e new.terms ≡ id_of e self.now.terms) }
        ensures named { IfOk result (λ new. (id : ℕ) → id < length self.now.given → slice_get new.given id ≡ slice_get self.now.given id) }
    {
        let copy = self.copy()?;
        let (new, _id) = copy.put(key, word)?;
        Ok(new)
    }

    /// The dictionary without that term, where this one stays as it is. The term's id still names it.
    pub fn without(&self, key: &str, word: &str) -> Result<TermDict, Memory>
        ensures becomes { IfOk result (λ new. new ≡ without_term (entry key.now word.now) self.now) }
        ensures listed { IfOk result (λ new. entries new.terms ≡ without_entry (entry key.now word.now) (entries self.now.terms)) }
        ensures kept { IfOk result (λ new. (e : Entry) → is_eq (entry_cmp (entry key.now word.now) e) ≡ false → id_of e new.terms ≡ id_of e self.now.terms) }
    {
        let mut new = self.copy()?;
        match new.take(key, word) {
            Ok(()) => Ok(new),
            Err(memory) => {
                drop(new);
                Err(memory)
            }
        }
    }
}
