ghost use Rattle.std.specs.Prelude.{◌≡◌, ◌<◌, ◌++◌, ◌∷◌, [], length, slice_index_or, IfOk};
ghost use Rattle.index_meaning.specs.Entries.{entry};

use crate::entry_ref::EntryRef;
use ft_base::Memory;
use std::alloc::Global;
use std::marker::Model;
use text_list::TextList;

/// A growing list of entries. Their words stand one after the other, and so do their keys, so that an entry takes no
/// memory of its own.
#[derive(Drop)]
pub struct EntryList {
    words: TextList,
    keys: TextList,
}

impl Model for EntryList {
    ghost use Rattle.std.specs.Prelude.{◌≡◌, List, length};
    ghost use Rattle.index_meaning.specs.Entries.{Entry};
    ghost use Rattle.term_dict.specs.Given.{paired};

    ghost Value = { List Entry };

    ghost view = { λ inside. paired inside.keys inside.words };

    ghost invariant = { λ inside. length inside.keys ≡ length inside.words };
}

impl EntryList {
    /// The empty list.
    pub fn new(alloc: Global) -> EntryList
        ensures { result ≡ [] }
    {
        EntryList {
            words: TextList::new(alloc),
            keys: TextList::new(alloc),
        }
    }

    /// The same entries in memory of their own.
    pub fn copy(&self) -> Result<EntryList, Memory>
        ensures { IfOk result (λ copy. copy ≡ self.now) }
    {
        let words = self.words.copy()?;
        let keys = self.keys.copy()?;
        Ok(EntryList { words, keys })
    }

    /// How many entries there are.
    pub fn len(&self) -> usize
        ensures { result ≡ length self.now }
    {
        self.words.len()
    }

    /// The entry of that number, counted from 0.
    pub fn get(&self, number: usize) -> EntryRef<'_>
        requires { number < length self.now }
        ensures { result ≡ slice_index_or self.now number result }
    {
        EntryRef::new(self.keys.get(number), self.words.get(number))
    }

    /// The list with one entry more, after the last one.
    pub fn pushed(self, key: &str, word: &str) -> Result<EntryList, Memory>
        ensures { IfOk result (λ list. list ≡ self ++ entry key.now word.now ∷ []) }
    {
        let mut words = self.words;
        let mut keys = self.keys;
        keys.push(key)?;
        words.push(word)?;
        Ok(EntryList { words, keys })
    }
}
