//! The terms of a dictionary: the ids in the order of their entries, and the entries by their ids.
ghost use Rattle.std.specs.Prelude.{◌≡◌, ◌≤◌, ◌<◌, ◌+◌, ◌^◌, ◌++◌, ◌∷◌, [], insert, remove, length, slice_index_or, IfOk, IfSome, OnErr, OnOk};
ghost use Rattle.index_meaning.specs.Entries.{Entry, entry};
ghost use Rattle.index_meaning.specs.Dictionaries.{dictionary, entries, ids, term};
ghost use Rattle.shared_list.specs.Blocks.{IsRun};

use crate::entry_ref::EntryRef;
use crate::given::Given;
use ft_base::Memory;
use shared_list::SharedList;
use std::alloc::Global;
use std::marker::Model;

/// How many ids a block holds at most.
const BLOCK_IDS: usize = 256;

/// How many ids there are at most.
const MAX_IDS: usize = 4294967295;

/// Terms in order, each with an id, which names its entry for ever. Each text is kept once, at its id.
#[derive(Drop)]
pub struct Terms {
    ids: SharedList<u32, BLOCK_IDS>,
    given: Given,
}

impl Model for Terms {
    ghost use Rattle.std.specs.Prelude.{◌≡◌, length, true};
    ghost use Rattle.index_meaning.specs.Dictionaries.{Dictionary, dictionary};
    ghost use Rattle.term_dict.specs.Given.{are_below, terms_of};

    ghost Value = { Dictionary };

    ghost view = { λ inside. dictionary (terms_of inside.given inside.ids) inside.given };

    ghost invariant = { λ inside. are_below (length inside.given) inside.ids ≡ true };
}

impl Terms {
    /// No terms.
    pub fn new(alloc: Global) -> Terms
        ensures { result ≡ dictionary [] [] }
    {
        Terms {
            ids: SharedList::new(alloc),
            given: Given::new(alloc),
        }
    }

    /// The same terms once more; none is copied.
    pub fn copy(&self) -> Result<Terms, Memory>
        ensures { IfOk result (λ copy. copy ≡ self.now) }
    {
        let ids = self.ids.copy()?;
        let given = self.given.copy()?;
        Ok(Terms { ids, given })
    }

    /// How many terms there are.
    pub fn len(&self) -> usize
        ensures { result ≡ length self.now.terms }
    {
        self.ids.len()
    }

    /// The id of the term of that number, counted from 0.
    pub fn id(&self, number: usize) -> u32
        requires { number < length self.now.terms }
        ensures given { result < length self.now.given }
        ensures id { result ≡ slice_index_or (ids self.now.terms) number result }
        ensures entry { (e : Entry) → slice_index_or self.now.given result e ≡ slice_index_or (entries self.now.terms) number e }
    {
        *self.ids.get(number)
    }

    /// The entry of the term of that number, counted from 0.
    pub fn entry(&self, number: usize) -> EntryRef<'_>
        requires { number < length self.now.terms }
        ensures { result ≡ slice_index_or (entries self.now.terms) number result }
    {
        self.given_entry(self.id(number))
    }

    /// How many ids were given: each number below is one.
    pub fn given_count(&self) -> usize
        ensures { result ≡ length self.now.given }
    {
        self.given.len()
    }

    /// The entry of that id.
    pub fn given_entry(&self, id: u32) -> EntryRef<'_>
        requires { id < length self.now.given }
        ensures { result ≡ slice_index_or self.now.given id result }
    {
        self.given.get(id as usize)
    }

    /// How many blocks the ids are in.
    pub fn block_count(&self) -> usize {
        self.ids.block_count()
    }

    /// The ids of the block of that number, counted from 0, and the number of the first of their terms; `None` where
    /// there is no such block.
    pub fn block(&self, number: usize) -> Option<(usize, &[u32])>
        ensures { IfSome result (λ block. IsRun (ids self.now.terms) block.0 block.1.now) }
    {
        self.ids.block(number)
    }

    /// The entry of the term of that number, whose id is read from the block, where it is in there.
    pub fn entry_in(&self, block: Option<(usize, &[u32])>, number: usize) -> EntryRef<'_>
        requires there { number < length self.now.terms }
        requires block { IfSome block (λ block. IsRun (ids self.now.terms) block.0 block.1.now) }
        ensures { result ≡ slice_index_or (entries self.now.terms) number result }
    {
        if let Some((start, items)) = block {
            if let Some(offset) = number.checked_sub(start) {
                if offset < items.len() {
                    return self.given.get(items[offset] as usize);
                }
            }
        }
        self.entry(number)
    }

    /// The terms with one more that isn't there, which comes to that number under the next id, and its id.
    pub fn put(self, number: usize, key: &str, word: &str) -> Result<(Terms, u32), Memory>
        requires { number ≤ length self.terms }
        ensures becomes { IfOk result (λ put. put.0 ≡
            dictionary (insert self.terms number (term (entry key.now word.now) (length self.given))) (self.given ++ entry key.now word.now ∷ [])) }
        ensures id { IfOk result (λ put. put.1 ≡ length self.given) }
        ensures fits { IfOk result (λ put. length put.0.given < 2 ^ 32) }
    {
        let id = next_id(&self.given)?;
        let mut ids = self.ids;
        ids.insert(number, id)?;
        let given = self.given.pushed(key, word)?;
        Ok((Terms { ids, given }, id))
    }

    /// Takes the term of that number out; its id still names it. Where memory runs out, all stays as it was.
    pub fn take(&mut self, number: usize) -> Result<(), Memory>
        requires { number < length self.old.terms }
        ensures ok { OnOk result (self.new ≡ dictionary (remove self.old.terms number) self.old.given) }
        ensures err { OnErr result (self.new ≡ self.old) }
    {
        self.ids.remove(number)?;
        Ok(())
    }
}

/// The id that the next new term gets. Where there is none left, since ids are of 32 bits, no memory is found.
fn next_id(given: &Given) -> Result<u32, Memory>
    ensures { IfOk result (λ id. (id ≡ length given.now) × (id + 1 < 2 ^ 32)) }
{
    let count = given.len();
    if count >= MAX_IDS {
        return Err(Memory);
    }
    Ok(count as u32)
}
