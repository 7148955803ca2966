ghost use Rattle.std.specs.Prelude.{◌≡◌, ◌<◌, ◌++◌, ◌∷◌, [], length, slice_set, IfOk, OnErr, OnOk};

use ft_base::Memory;
use shared_list::Share;
use std::alloc::Global;
use std::marker::Model;
use std::rc::Rc;

/// A run of items that several vectors may hold. Contracts see the list of the items.
#[derive(Drop)]
pub(crate) struct Block<T> {
    items: Rc<Vec<T>>,
}

impl<T> Model for Block<T> {
    ghost use Rattle.std.specs.Prelude.{List};
    ghost use Rattle.std.specs.Coded.{coded_list};

    ghost Value = { List T };

    ghost coded = { coded_list T.code };

    ghost view = { λ block. block.items.value.items };
}

impl<T: Drop> Block<T> {
    /// A block of one item.
    pub(crate) fn new(alloc: Global, item: T) -> Result<Block<T>, Memory>
        ensures { IfOk result (λ block. block ≡ item ∷ []) }
    {
        let mut items = Vec::new(alloc);
        items.push(item)?;
        let items = Rc::new(alloc, items)?;
        Ok(Block { items })
    }

    /// The same block once more; no item is copied.
    pub(crate) fn share(&self) -> Result<Block<T>, Memory>
        ensures { IfOk result (λ block. block ≡ self.now) }
    {
        let items = self.items.clone()?;
        Ok(Block { items })
    }

    /// The items, in order.
    pub(crate) fn as_slice(&self) -> &[T]
        ensures { result.now ≡ self.now }
    {
        self.items.as_slice()
    }

    /// How many items there are.
    pub(crate) fn len(&self) -> usize
        ensures { result ≡ length self.now }
    {
        self.items.len()
    }
}

impl<T: Share> Block<T> {
    /// Puts the item after the last one. A block that other vectors hold is copied first, so that they keep theirs.
    pub(crate) fn push(&mut self, item: T) -> Result<(), Memory>
        ensures ok { OnOk result (self.new ≡ self.old ++ item ∷ []) }
        ensures err { OnErr result (self.new ≡ self.old) }
    {
        match Rc::get_mut(&mut self.items) {
            Some(items) => {
                items.push(item)?;
                Ok(())
            }
            None => self.push_in_copy(item),
        }
    }

    /// Puts the item after the last one of a copy of the block, which takes the block's place.
    fn push_in_copy(&mut self, item: T) -> Result<(), Memory>
        ensures ok { OnOk result (self.new ≡ self.old ++ item ∷ []) }
        ensures err { OnErr result (self.new ≡ self.old) }
    {
        let alloc = *self.items.allocator();
        let mut copy = T::copies(alloc, self.items.as_slice())?;
        copy.push(item)?;
        self.items = Rc::new(alloc, copy)?;
        Ok(())
    }

    /// Puts the item in the place of the one that is there. A block that other vectors hold is copied first, so that
    /// they keep theirs.
    pub(crate) fn put(&mut self, at: usize, item: T) -> Result<(), Memory>
        requires { at < length self.old }
        ensures ok { OnOk result (self.new ≡ slice_set self.old at item) }
        ensures err { OnErr result (self.new ≡ self.old) }
    {
        match Rc::get_mut(&mut self.items) {
            Some(items) => {
                items[at] = item;
                Ok(())
            }
            None => self.put_in_copy(at, item),
        }
    }

    /// Puts the item in the place of another in a copy of the block, which takes the block's place.
    fn put_in_copy(&mut self, at: usize, item: T) -> Result<(), Memory>
        requires { at < length self.old }
        ensures ok { OnOk result (self.new ≡ slice_set self.old at item) }
        ensures err { OnErr result (self.new ≡ self.old) }
    {
        let alloc = *self.items.allocator();
        let mut copy = T::copies(alloc, self.items.as_slice())?;
        copy[at] = item;
        self.items = Rc::new(alloc, copy)?;
        Ok(())
    }
}
