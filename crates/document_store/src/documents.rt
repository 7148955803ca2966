//! The documents of a collection in the order in which they were loaded.

ghost use Rattle.std.specs.Prelude.{◌≡◌, ◌<◌, ◌+◌, ◌++◌, ◌∷◌, [], None, drop, length, map, remove, IfOk, OnErr, OnOk};
ghost use Rattle.std.specs.Iterator.{at_most};
ghost use Rattle.std.specs.List.{IsDistinct};
ghost use Rattle.std.specs.Map.{keys_of, lookup, remove_entry};
ghost use Rattle.std.specs.Map.Iter.{TakesFirst, deref_pair};
ghost use Rattle.std.specs.Option.{option_copied};
ghost use Rattle.std.specs.Str.{bytes_eq};
ghost use Rattle.indexmap.specs.IndexMap.{set_value_at};
ghost use Rattle.document_store.specs.Documents.{has_name};
ghost use Rattle.document_store.specs.Loaded.{to_document};

use crate::loaded::Loaded;
use crate::names::Names;
use ft_base::{Line, Memory};
use shared_list::SharedList;
use std::alloc::Global;
use std::marker::Model;

/// As many documents are copied, by their counted pointers, where one of them changes that another collection holds too.
const BLOCK_DOCUMENTS: usize = 64;

/// Documents in the order in which they were loaded.
type Ordered = SharedList<Loaded, BLOCK_DOCUMENTS>;

/// Documents with their names, in the order in which they were loaded; no two have one name. A copy shares all with the one that
/// it was made of, and neither sees a change to the other.
#[derive(Drop)]
pub struct Documents {
    names: Names,
    loaded: Ordered,
}

impl Model for Documents {
    ghost use Rattle.std.specs.Prelude.{◌≡◌, ℕ, List, length};
    ghost use Rattle.std.specs.List.{zip};
    ghost use Rattle.document_store.specs.Loaded.{LoadedTree};
    ghost use Rattle.document_store.specs.StoredIndexed.{entries_code};

    ghost Value = { List (List ℕ × LoadedTree) };

    ghost coded = { entries_code };

    ghost view = { λ inside. zip inside.names inside.loaded };

    ghost invariant = { λ inside. length inside.loaded ≡ length inside.names };
}

impl Documents {
    /// No documents.
    pub(crate) fn new(alloc: Global) -> Documents
        ensures { result ≡ [] }
    {
        Documents {
            names: Names::new(),
            loaded: SharedList::new(alloc),
        }
    }

    /// The same documents once more; none of them is copied, nor a name.
    pub(crate) fn share(&self) -> Result<Documents, Memory>
        ensures { IfOk result (λ copy. copy ≡ self.now) }
    {
        let names = self.names.share()?;
        let loaded = self.loaded.copy()?;
        Ok(Documents { names, loaded })
    }

    /// How many documents there are. No two of them have one name.
    pub(crate) fn len(&self) -> usize
        ensures len { result ≡ length self.now }
        ensures distinct { IsDistinct bytes_eq (keys_of self.now) }
    {
        self.names.as_slice().len()
    }

    /// The document of the name, if there is one.
    pub fn get(&self, name: &Line) -> Option<&Loaded>
        ensures { option_copied result ≡ lookup (bytes_eq name.now) self.now }
    {
        match self.names.position(name) {
            Some(at) => Some(self.loaded.get(at)),
            None => None,
        }
    }

    /// Whether there is a document of the name.
    pub fn contains_key(&self, name: &Line) -> bool
        ensures { result ≡ has_name name.now (map to_document self.now) }
    {
        match self.get(name) {
            Some(_) => true,
            None => false,
        }
    }

    /// The documents with their names, in order. No two of them have one name.
    pub fn iter(&self) -> Iter<'_>
        ensures rest { result ≡ self.now }
        ensures distinct { IsDistinct bytes_eq (keys_of self.now) }
    {
        // No two documents have one name, as the clauses of `len` say.
        let _count = self.len();
        Iter {
            documents: self,
            at: 0,
        }
    }

    /// The document at that place, counted from 0, with its name; the others that are after it come next.
    pub(crate) fn entry(&self, at: usize) -> (&Line, &Loaded)
        requires { at < length self.now }
        ensures { drop at self.now ≡ (result.0.now, result.1.now) ∷ drop (at + 1) self.now }
    {
        (&self.names.as_slice()[at], self.loaded.get(at))
    }

    /// Puts a document with a new name after the others.
    pub(crate) fn push(&mut self, alloc: Global, name: Line, document: Loaded) -> Result<(), Memory>
        requires { lookup (bytes_eq name) self.old ≡ None }
        ensures ok { OnOk result (self.new ≡ self.old ++ (name, document) ∷ []) }
        ensures err { OnErr result (self.new ≡ self.old) }
    {
        let Ok(loaded) = with_one_more(&self.loaded, document) else {
            drop(name);
            return Err(Memory);
        };
        match self.names.push(alloc, name) {
            Ok(()) => {
                self.loaded = loaded;
                Ok(())
            }
            Err(memory) => {
                drop(loaded);
                Err(memory)
            }
        }
    }

    /// Puts a document in the place of the one at that place, counted from 0, whose name it gets.
    pub(crate) fn replace(&mut self, at: usize, document: Loaded) -> Result<(), Memory>
        requires { at < length self.old }
        ensures ok { OnOk result (self.new ≡ set_value_at self.old at document) }
        ensures err { OnErr result (self.new ≡ self.old) }
    {
        self.loaded.replace(at, document)?;
        Ok(())
    }

    /// Takes the document of the name out, if there is one.
    pub(crate) fn remove(&mut self, alloc: Global, name: &Line) -> Result<(), Memory>
        ensures ok { OnOk result (self.new ≡ remove_entry (bytes_eq name.now) self.old) }
        ensures err { OnErr result (self.new ≡ self.old) }
    {
        let Some(at) = self.names.position(name) else {
            return Ok(());
        };
        let loaded = without_one(&self.loaded, at)?;
        match self.names.remove(alloc, at) {
            Ok(()) => {
                self.loaded = loaded;
                Ok(())
            }
            Err(memory) => {
                drop(loaded);
                Err(memory)
            }
        }
    }
}

/// These documents and one more after them.
fn with_one_more(loaded: &Ordered, document: Loaded) -> Result<Ordered, Memory>
    ensures { IfOk result (λ more. more ≡ loaded.now ++ document ∷ []) }
{
    let Ok(mut more) = loaded.copy() else {
        drop(document);
        return Err(Memory);
    };
    match more.push(document) {
        Ok(()) => Ok(more),
        Err(memory) => {
            drop(more);
            Err(memory)
        }
    }
}

/// These documents without the one at that place.
fn without_one(loaded: &Ordered, at: usize) -> Result<Ordered, Memory>
    requires { at < length loaded.now }
    ensures { IfOk result (λ fewer. fewer ≡ remove loaded.now at) }
{
    let mut fewer = loaded.copy()?;
    match fewer.remove(at) {
        Ok(document) => {
            drop(document);
            Ok(fewer)
        }
        Err(memory) => {
            drop(fewer);
            Err(memory)
        }
    }
}

/// The documents with their names, in order, from a place on.
#[derive(Drop)]
pub struct Iter<'a> {
    documents: &'a Documents,
    at: usize,
}

impl<'a> Model for Iter<'a> {
    ghost use Rattle.std.specs.Prelude.{ℕ, List, drop};
    ghost use Rattle.document_store.specs.Loaded.{LoadedTree};
    ghost use Rattle.document_store.specs.StoredIndexed.{entries_code};

    ghost Value = { List (List ℕ × LoadedTree) };

    ghost coded = { entries_code };

    ghost view = { λ inside. drop inside.at inside.documents.now };
}

impl<'a> Iterator for Iter<'a> {
    type Item = (&'a Line, &'a Loaded);

    ghost next_gives = { TakesFirst deref_pair };

    ghost remaining = { λ left. at_most (length left) };

    fn next(&mut self) -> Option<(&'a Line, &'a Loaded)> {
        if self.at >= self.documents.len() {
            return None;
        }
        let entry = self.documents.entry(self.at);
        self.at += 1;
        Some(entry)
    }
}
