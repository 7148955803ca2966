ghost use Rattle.std.specs.Prelude.{◌≡◌, ◌<◌, ◌↔◌, ◌++◌, ◌∷◌, [], length, slice_index_or, slice_set, IfOk, IsTrue, OnErr, OnOk};
ghost use Rattle.shared_list.specs.Blocks.{joined};
ghost use Rattle.shared_vector.specs.Full.{IsFilled};

use crate::block::Block;
use ft_base::Memory;
use shared_list::Share;
use std::alloc::Global;
use std::marker::Model;

/// How many items a full block has.
const BLOCK: usize = 64;

/// A vector in blocks, which contracts see as the plain list of its items. A copy shares the blocks with the vector that
/// it was made of; neither sees a change to the other.
#[derive(Drop)]
pub struct SharedVector<T> {
    pub(crate) blocks: Vec<Block<T>>,
    len: usize,
}

impl<T> Model for SharedVector<T> {
    ghost use Rattle.std.specs.Prelude.{◌≡◌, List, length};
    ghost use Rattle.std.specs.Coded.{coded_list};
    ghost use Rattle.shared_list.specs.Blocks.{joined};
    ghost use Rattle.shared_vector.specs.Full.{IsFilled};

    ghost Value = { List T };

    ghost coded = { coded_list T.code };

    ghost view = { λ inside. joined inside.blocks.items };

    ghost invariant = { λ inside. record {
      filled : IsFilled inside.blocks.items;
      counted : inside.len ≡ length (joined inside.blocks.items);
    } };
}

impl<T: Drop> SharedVector<T> {
    /// The empty vector.
    pub fn new(alloc: Global) -> SharedVector<T>
        ensures { result ≡ [] }
    {
        SharedVector {
            blocks: Vec::new(alloc),
            len: 0,
        }
    }

    /// The same vector once more, in the memory of this one; no item is copied.
    pub fn share(&self) -> Result<SharedVector<T>, Memory>
        ensures { IfOk result (λ copy. copy ≡ self.now) }
    {
        let blocks = shared(&self.blocks)?;
        Ok(SharedVector {
            blocks,
            len: self.len,
        })
    }

    /// How many items there are.
    pub fn len(&self) -> usize
        ensures { result ≡ length self.now }
    {
        self.len
    }

    /// Whether there is no item.
    pub fn is_empty(&self) -> bool
        ensures { IsTrue result ↔ (self.now ≡ []) }
    {
        self.len == 0
    }

    /// The item at that place, counted from 0.
    pub fn get(&self, at: usize) -> &T
        requires { at < length self.now }
        ensures { result.now ≡ slice_index_or self.now at result.now }
    {
        &self.blocks[at / BLOCK].as_slice()[at % BLOCK]
    }
}

impl<T: Share> SharedVector<T> {
    /// The items of the vector, in order.
    pub fn from_vec(items: Vec<T>) -> Result<SharedVector<T>, Memory>
        ensures { IfOk result (λ vector. vector ≡ items.items) }
    {
        let mut vector = SharedVector::new(*items.allocator());
        for item in items {
            vector.push(item)?;
        }
        Ok(vector)
    }

    /// Puts the item after the last one. Where memory runs out, or places, which are of 64 bits, the vector stays as it was
    /// and the item is dropped.
    pub fn push(&mut self, item: T) -> Result<(), Memory>
        ensures ok { OnOk result (self.new ≡ self.old ++ item ∷ []) }
        ensures err { OnErr result (self.new ≡ self.old) }
    {
        let Some(len) = self.len.checked_add(1) else {
            return Err(Memory);
        };
        push_item(&mut self.blocks, item)?;
        self.len = len;
        Ok(())
    }

    /// Puts the item in the place of the one at that place, counted from 0. Where memory runs out, the vector stays as
    /// it was and the item is dropped.
    pub fn put(&mut self, at: usize, item: T) -> Result<(), Memory>
        requires { at < length self.old }
        ensures ok { OnOk result (self.new ≡ slice_set self.old at item) }
        ensures err { OnErr result (self.new ≡ self.old) }
    {
        self.blocks[at / BLOCK].put(at % BLOCK, item)?;
        Ok(())
    }
}

/// The blocks once more; no item is copied.
fn shared<T: Drop>(blocks: &Vec<Block<T>>) -> Result<Vec<Block<T>>, Memory>
    ensures { IfOk result (λ copy. copy.items ≡ blocks.now.items) }
{
    let mut copy = Vec::with_capacity(*blocks.allocator(), blocks.len())?;
    for block in blocks {
        copy.push(block.share()?)?;
    }
    Ok(copy)
}

/// Puts the item after the last one, into a new block where the last block is full.
fn push_item<T: Share>(blocks: &mut Vec<Block<T>>, item: T) -> Result<(), Memory>
    requires filled { IsFilled blocks.old.items }
    ensures filled { IsFilled blocks.new.items }
    ensures ok { OnOk result (joined blocks.new.items ≡ joined blocks.old.items ++ item ∷ []) }
    ensures err { OnErr result (blocks.new.items ≡ blocks.old.items) }
{
    let count = blocks.len();
    if count > 0 {
        if blocks[count - 1].len() < BLOCK {
            blocks[count - 1].push(item)?;
            return Ok(());
        }
    }
    let block = Block::new(*blocks.allocator(), item)?;
    blocks.push(block)?;
    Ok(())
}
