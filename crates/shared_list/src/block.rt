ghost use Rattle.std.specs.Prelude.{◌≡◌, ◌≤◌, ◌<◌, ◌++◌, [], insert, remove, length, slice_index_or, slice_set, IfOk, OnErr, OnOk};

use crate::Share;
use ft_base::Memory;
use std::alloc::Global;
use std::marker::Model;
use std::rc::Rc;

/// A run of items that several lists may hold. Contracts see the list of the items.
#[derive(Drop)]
pub struct Block<T> {
    items: Rc<Vec<T>>,
}

impl<T> Model for Block<T> {
    ghost use Rattle.std.specs.Prelude.{List};
    ghost use Rattle.std.specs.Coded.{coded_list};

    ghost Value = { List T };

    ghost coded = { coded_list T.code };

    ghost view = { λ block. block.items.value.items };
}

impl<T: Drop> Block<T> {
    /// A block of the vector's items, in its memory.
    pub fn new(items: Vec<T>) -> Result<Block<T>, Memory>
        ensures { IfOk result (λ block. block ≡ items.items) }
    {
        let alloc = *items.allocator();
        let items = Rc::new(alloc, items)?;
        Ok(Block { items })
    }

    /// The same block once more; no item is copied.
    pub fn share(&self) -> Result<Block<T>, Memory>
        ensures { IfOk result (λ block. block ≡ self.now) }
    {
        let items = self.items.clone()?;
        Ok(Block { items })
    }

    /// The items, in order.
    pub fn as_slice(&self) -> &[T]
        ensures { result.now ≡ self.now }
    {
        self.items.as_slice()
    }

    /// How many items there are.
    pub fn len(&self) -> usize
        ensures { result ≡ length self.now }
    {
        self.items.len()
    }
}

impl<T: Share> Block<T> {
    /// Puts the item at that place. A block that other lists hold is copied first, so that they keep theirs.
    pub fn put(&mut self, at: usize, item: T) -> Result<(), Memory>
        requires { at ≤ length self.old }
        ensures ok { OnOk result (self.new ≡ insert self.old at item) }
        ensures err { OnErr result (self.new ≡ self.old) }
    {
        match Rc::get_mut(&mut self.items) {
            Some(items) => {
                items.insert(at, item)?;
                Ok(())
            }
            None => self.put_in_copy(at, item),
        }
    }

    /// Puts the item into a copy of the block, which takes the block's place.
    fn put_in_copy(&mut self, at: usize, item: T) -> Result<(), Memory>
        requires { at ≤ length self.old }
        ensures ok { OnOk result (self.new ≡ insert self.old at item) }
        ensures err { OnErr result (self.new ≡ self.old) }
    {
        let alloc = *self.items.allocator();
        let mut copy = T::copies(alloc, self.items.as_slice())?;
        copy.insert(at, item)?;
        self.items = Rc::new(alloc, copy)?;
        Ok(())
    }

    /// Takes the item at that place out. A block that other lists hold is copied first, so that they keep theirs.
    pub fn take(&mut self, at: usize) -> Result<T, Memory>
        requires { at < length self.old }
        ensures item { IfOk result (λ item. item ≡ slice_index_or self.old at item) }
        ensures ok { OnOk result (self.new ≡ remove self.old at) }
        ensures err { OnErr result (self.new ≡ self.old) }
    {
        match Rc::get_mut(&mut self.items) {
            Some(items) => Ok(items.remove(at)),
            None => self.take_from_copy(at),
        }
    }

    /// Takes the item out of a copy of the block, which takes the block's place.
    fn take_from_copy(&mut self, at: usize) -> Result<T, Memory>
        requires { at < length self.old }
        ensures item { IfOk result (λ item. item ≡ slice_index_or self.old at item) }
        ensures ok { OnOk result (self.new ≡ remove self.old at) }
        ensures err { OnErr result (self.new ≡ self.old) }
    {
        let alloc = *self.items.allocator();
        let mut copy = T::copies(alloc, self.items.as_slice())?;
        let item = copy.remove(at);
        self.items = Rc::new(alloc, copy)?;
        Ok(item)
    }

    /// Puts the item in the place of the one that is there. A block that other lists hold is copied first, so that they
    /// keep theirs.
    pub fn replace(&mut self, at: usize, item: T) -> Result<(), Memory>
        requires { at < length self.old }
        ensures ok { OnOk result (self.new ≡ slice_set self.old at item) }
        ensures err { OnErr result (self.new ≡ self.old) }
    {
        match Rc::get_mut(&mut self.items) {
            Some(items) => {
                items[at] = item;
                Ok(())
            }
            None => self.replace_in_copy(at, item),
        }
    }

    /// Puts the item in the place of another in a copy of the block, which takes the block's place.
    fn replace_in_copy(&mut self, at: usize, item: T) -> Result<(), Memory>
        requires { at < length self.old }
        ensures ok { OnOk result (self.new ≡ slice_set self.old at item) }
        ensures err { OnErr result (self.new ≡ self.old) }
    {
        let alloc = *self.items.allocator();
        let mut copy = T::copies(alloc, self.items.as_slice())?;
        copy[at] = item;
        self.items = Rc::new(alloc, copy)?;
        Ok(())
    }

    /// The block as two blocks, the first of them with the items before the place.
    pub fn halves(&self, at: usize) -> Result<(Block<T>, Block<T>), Memory>
        requires { at ≤ length self.now }
        ensures { IfOk result (λ halves. (halves.0 ++ halves.1 ≡ self.now) × (length halves.0 ≡ at)) }
    {
        let alloc = *self.items.allocator();
        let items = self.items.as_slice();
        let prefix = Block::new(T::copies(alloc, &items[..at])?)?;
        let back = Block::new(T::copies(alloc, &items[at..])?)?;
        Ok((prefix, back))
    }
}
