ghost use Rattle.std.specs.Prelude.{◌≡◌, ◌≤◌, ◌<◌, ◌+◌, ◌-◌, ◌^◌, ◌++◌, ◌∷◌, [], insert, remove, length, slice_index_or, slice_set, IfOk, OnErr, OnOk};
ghost use Rattle.shared_list.specs.Blocks.{joined, start_of, IsBlockOf};

use crate::Share;
use crate::block::Block;
use crate::starts::{last_at_most, last_at_most_near, lower, raise};
use ft_base::Memory;
use std::alloc::Global;
use std::marker::Model;

/// The blocks of a list, with the place where each starts. Contracts see the list of the blocks' items.
#[derive(Drop)]
pub struct Blocks<T> {
    blocks: Vec<Block<T>>,
    starts: Vec<usize>,
}

impl<T> Model for Blocks<T> {
    ghost use Rattle.std.specs.Prelude.{◌≡◌, List};
    ghost use Rattle.std.specs.Coded.{coded_list};
    ghost use Rattle.shared_list.specs.Blocks.{starts_from};

    ghost Value = { List (List T) };

    ghost coded = { coded_list (coded_list T.code) };

    ghost view = { λ inside. inside.blocks.items };

    ghost invariant = { λ inside. inside.starts.items ≡ starts_from 0 inside.blocks.items };
}

impl<T: Drop> Blocks<T> {
    /// No blocks.
    pub fn new(alloc: Global) -> Blocks<T>
        ensures { result ≡ [] }
    {
        Blocks {
            blocks: Vec::new(alloc),
            starts: Vec::new(alloc),
        }
    }

    /// The same blocks once more; no item is copied.
    pub fn share(&self) -> Result<Blocks<T>, Memory>
        ensures { IfOk result (λ copy. copy ≡ self.now) }
    {
        let alloc = *self.blocks.allocator();
        let starts = Vec::from_slice(alloc, self.starts.as_slice())?;
        let blocks = shared(alloc, &self.blocks)?;
        Ok(Blocks { blocks, starts })
    }

    /// How many blocks there are.
    pub fn count(&self) -> usize
        ensures { result ≡ length self.now }
    {
        self.blocks.len()
    }

    /// The number of the block in which the place is: the last one that starts before it or at it.
    pub fn block_of(&self, at: usize) -> usize
        requires { 0 < length self.now }
        ensures { IsBlockOf self.now at result }
    {
        last_at_most(&self.starts, at)
    }

    /// The same, where it is likely to be the block of a given number.
    pub fn block_near(&self, at: usize, likely: usize) -> usize
        requires { 0 < length self.now }
        ensures { IsBlockOf self.now at result }
    {
        last_at_most_near(&self.starts, at, likely)
    }

    /// The place of the first item of that block.
    pub fn start(&self, number: usize) -> usize
        requires { number < length self.now }
        ensures { result ≡ start_of self.now number }
    {
        self.starts[number]
    }

    /// The items of that block.
    pub fn items(&self, number: usize) -> &[T]
        requires { number < length self.now }
        ensures { result.now ≡ slice_index_or self.now number [] }
    {
        self.blocks[number].as_slice()
    }

    /// Puts an empty block after the last one, where so many items are before it.
    pub fn add_empty(&mut self, start: usize) -> Result<(), Memory>
        requires { start ≡ length (joined self.old) }
        ensures ok { OnOk result (self.new ≡ self.old ++ [] ∷ []) }
        ensures err { OnErr result (self.new ≡ self.old) }
    {
        let block = Block::new(Vec::new(*self.blocks.allocator()))?;
        self.starts.push(start)?;
        match self.blocks.push(block) {
            Ok(()) => Ok(()),
            Err(_) => {
                let _ = self.starts.pop();
                Err(Memory)
            }
        }
    }
}

/// The blocks once more; no item is copied.
fn shared<T: Drop>(alloc: Global, blocks: &Vec<Block<T>>) -> Result<Vec<Block<T>>, Memory>
    ensures { IfOk result (λ copy. copy.items ≡ blocks.now.items) }
{
    let mut copy = Vec::with_capacity(alloc, blocks.len())?;
    for block in blocks {
        copy.push(block.share()?)?;
    }
    Ok(copy)
}

impl<T: Share> Blocks<T> {
    /// Puts the item at a place of that block.
    pub fn put(&mut self, number: usize, at: usize, item: T) -> Result<(), Memory>
        requires block { number < length self.old }
        requires place { at ≤ length (slice_index_or self.old number []) }
        requires room { length (joined self.old) < 2 ^ 64 - 1 }
        ensures ok { OnOk result (self.new ≡ slice_set self.old number (insert (slice_index_or self.old number []) at item)) }
        ensures err { OnErr result (self.new ≡ self.old) }
    {
        self.blocks[number].put(at, item)?;
        raise(&mut self.starts, number + 1);
        Ok(())
    }

    /// Puts the item in the place of one of that block.
    pub fn replace(&mut self, number: usize, at: usize, item: T) -> Result<(), Memory>
        requires block { number < length self.old }
        requires place { at < length (slice_index_or self.old number []) }
        ensures ok { OnOk result (self.new ≡ slice_set self.old number (slice_set (slice_index_or self.old number []) at item)) }
        ensures err { OnErr result (self.new ≡ self.old) }
    {
        self.blocks[number].replace(at, item)?;
        Ok(())
    }

    /// Takes the item at a place of that block out.
    pub fn take(&mut self, number: usize, at: usize) -> Result<T, Memory>
        requires block { number < length self.old }
        requires place { at < length (slice_index_or self.old number []) }
        ensures item { IfOk result (λ item. item ≡ slice_index_or (slice_index_or self.old number []) at item) }
        ensures ok { OnOk result (self.new ≡ slice_set self.old number (remove (slice_index_or self.old number []) at)) }
        ensures err { OnErr result (self.new ≡ self.old) }
    {
        let item = self.blocks[number].take(at)?;
        lower(&mut self.starts, number + 1);
        Ok(item)
    }

    /// Takes the block of that number out where it has no items.
    pub fn forget_if_empty(&mut self, number: usize)
        requires { number < length self.old }
        ensures same { joined self.new ≡ joined self.old }
        ensures gone { slice_index_or self.old number [] ≡ [] → self.new ≡ remove self.old number }
    {
        if self.blocks[number].len() > 0 {
            return;
        }
        drop(self.blocks.remove(number));
        self.starts.remove(number);
    }

    /// Makes two blocks of that block, with half of its items each.
    pub fn split(&mut self, number: usize) -> Result<(), Memory>
        requires block { number < length self.old }
        requires room { length (joined self.old) < 2 ^ 64 }
        ensures same { joined self.new ≡ joined self.old }
        ensures some { 0 < length self.new }
        ensures more { OnOk result (length self.new ≡ length self.old + 1) }
    {
        let half = self.blocks[number].len() / 2;
        let (prefix, back) = self.blocks[number].halves(half)?;
        let middle = self.start(number) + half;
        self.starts.insert(number + 1, middle)?;
        match self.blocks.insert(number + 1, back) {
            Ok(()) => {
                self.blocks[number] = prefix;
                Ok(())
            }
            Err(_) => {
                self.starts.remove(number + 1);
                Err(Memory)
            }
        }
    }
}
