ghost use Rattle.std.specs.Prelude.{◌≡◌, ◌<◌, ◌++◌, ◌∷◌, [], length, slice_index_or, IfOk};
ghost use Rattle.index_meaning.specs.Entries.{entry};

use crate::entry_list::EntryList;
use crate::entry_ref::EntryRef;
use ft_base::Memory;
use std::alloc::Global;
use std::marker::Model;
use std::rc::Rc;

/// A run of entries that several dictionaries may hold.
#[derive(Drop)]
pub struct EntryBlock {
    list: Rc<EntryList>,
}

impl Model for EntryBlock {
    ghost use Rattle.std.specs.Prelude.{List};
    ghost use Rattle.index_meaning.specs.Entries.{Entry};

    ghost Value = { List Entry };

    ghost view = { λ inside. inside.list.value };
}

impl EntryBlock {
    /// A block without entries.
    pub fn new(alloc: Global) -> Result<EntryBlock, Memory>
        ensures { IfOk result (λ block. block ≡ []) }
    {
        let list = Rc::new(alloc, EntryList::new(alloc))?;
        Ok(EntryBlock { list })
    }

    /// The same block once more; no entry is copied.
    pub fn share(&self) -> Result<EntryBlock, Memory>
        ensures { IfOk result (λ block. block ≡ self.now) }
    {
        let list = self.list.clone()?;
        Ok(EntryBlock { list })
    }

    /// How many entries there are.
    pub fn len(&self) -> usize
        ensures { result ≡ length self.now }
    {
        self.list.len()
    }

    /// The entry of that number, counted from 0.
    pub fn get(&self, number: usize) -> EntryRef<'_>
        requires { number < length self.now }
        ensures { result ≡ slice_index_or self.now number result }
    {
        self.list.get(number)
    }

    /// The block with one entry more, after the last one. Where other dictionaries hold the block, they keep theirs.
    pub fn pushed(self, alloc: Global, key: &str, word: &str) -> Result<EntryBlock, Memory>
        ensures { IfOk result (λ block. block ≡ self ++ entry key.now word.now ∷ []) }
    {
        let list = own(self.list)?;
        let list = Rc::new(alloc, list.pushed(key, word)?)?;
        Ok(EntryBlock { list })
    }
}

/// The entries, copied where they are held elsewhere too.
fn own(list: Rc<EntryList>) -> Result<EntryList, Memory>
    ensures { IfOk result (λ own. own ≡ list.value) }
{
    match Rc::try_unwrap(list) {
        Ok(own) => Ok(own),
        Err(shared) => shared.copy(),
    }
}
