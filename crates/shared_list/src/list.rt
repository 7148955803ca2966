ghost use Rattle.std.specs.Prelude.{◌≡◌, ◌≤◌, ◌<◌, ◌+◌, ◌-◌, ◌^◌, ◌↔◌, ◌++◌, ◌∷◌, [], insert, remove};
ghost use Rattle.std.specs.Prelude.{length, slice_index_or, slice_set, IfOk, IfSome, IsTrue, OnErr, OnOk};
ghost use Rattle.shared_list.specs.Blocks.{joined, IsRun};

use crate::Share;
use crate::blocks::Blocks;
use ft_base::Memory;
use std::alloc::Global;
use std::marker::Model;

/// A list in blocks of about `BLOCK` items, which contracts see as the plain list of its items. A copy shares the
/// blocks with the list that it was made of; neither sees a change to the other.
#[derive(Drop)]
pub struct SharedList<T, const BLOCK: usize> {
    blocks: Blocks<T>,
    len: usize,
}

impl<T, const BLOCK: usize> Model for SharedList<T, BLOCK> {
    ghost use Rattle.std.specs.Prelude.{◌≡◌, List, length};
    ghost use Rattle.std.specs.Coded.{coded_list};
    ghost use Rattle.shared_list.specs.Blocks.{joined};

    ghost Value = { List T };

    ghost coded = { coded_list T.code };

    ghost view = { λ inside. joined inside.blocks };

    ghost invariant = { λ inside. inside.len ≡ length (joined inside.blocks) };
}

impl<T: Drop, const BLOCK: usize> SharedList<T, BLOCK> {
    /// The empty list.
    pub fn new(alloc: Global) -> SharedList<T, BLOCK>
        ensures { result ≡ [] }
    {
        SharedList {
            blocks: Blocks::new(alloc),
            len: 0,
        }
    }

    /// The same list once more, in the memory of this one.
    pub fn copy(&self) -> Result<SharedList<T, BLOCK>, Memory>
        ensures { IfOk result (λ copy. copy ≡ self.now) }
    {
        let blocks = self.blocks.share()?;
        Ok(SharedList {
            blocks,
            len: self.len,
        })
    }

    /// How many items there are.
    pub fn len(&self) -> usize
        ensures { result ≡ length self.now }
    {
        self.len
    }

    /// Whether there is no item.
    pub fn is_empty(&self) -> bool
        ensures { IsTrue result ↔ (self.now ≡ []) }
    {
        self.len == 0
    }

    /// The item at that place, counted from 0.
    pub fn get(&self, at: usize) -> &T
        requires { at < length self.now }
        ensures { result.now ≡ slice_index_or self.now at result.now }
    {
        let number = self.blocks.block_near(at, block_if_full::<BLOCK>(at));
        &self.blocks.items(number)[at - self.blocks.start(number)]
    }

    /// How many blocks the items are in: at least one where there are items.
    pub fn block_count(&self) -> usize
        ensures { 0 < length self.now → 0 < result }
    {
        self.blocks.count()
    }

    /// The items of the block of that number, counted from 0, and the place of the first of them; `None` where there
    /// is no such block. Who searches the list looks at a block of it at once; no contract says where blocks begin.
    pub fn block(&self, number: usize) -> Option<(usize, &[T])>
        ensures { IfSome result (λ block. IsRun self.now block.0 block.1.now) }
    {
        if number >= self.blocks.count() {
            return None;
        }
        Some((self.blocks.start(number), self.blocks.items(number)))
    }
}

impl<T: Share, const BLOCK: usize> SharedList<T, BLOCK> {
    /// Puts the item after the last one. Where memory runs out, or places, which are of 64 bits, the list stays as it was
    /// and the item is dropped.
    pub fn push(&mut self, item: T) -> Result<(), Memory>
        ensures ok { OnOk result (self.new ≡ self.old ++ item ∷ []) }
        ensures err { OnErr result (self.new ≡ self.old) }
    {
        self.insert(self.len, item)
    }

    /// Puts the item at that place, counted from 0, before the one that is there. Where memory runs out, or places, which
    /// are of 64 bits, the list stays as it was and the item is dropped.
    pub fn insert(&mut self, at: usize, item: T) -> Result<(), Memory>
        requires { at ≤ length self.old }
        ensures ok { OnOk result (self.new ≡ insert self.old at item) }
        ensures err { OnErr result (self.new ≡ self.old) }
    {
        let Some(len) = self.len.checked_add(1) else {
            return Err(Memory);
        };
        make_room::<T, BLOCK>(&mut self.blocks, at, self.len)?;
        put(&mut self.blocks, at, item)?;
        self.len = len;
        Ok(())
    }

    /// Puts the item in the place of the one at that place, counted from 0. Where memory runs out, the list stays as it
    /// was and the item is dropped.
    pub fn replace(&mut self, at: usize, item: T) -> Result<(), Memory>
        requires { at < length self.old }
        ensures ok { OnOk result (self.new ≡ slice_set self.old at item) }
        ensures err { OnErr result (self.new ≡ self.old) }
    {
        let likely = block_if_full::<BLOCK>(at);
        replace(&mut self.blocks, likely, at, item)
    }

    /// Takes the item at that place, counted from 0, out of the list. Where memory runs out, the list stays as it was.
    pub fn remove(&mut self, at: usize) -> Result<T, Memory>
        requires { at < length self.old }
        ensures item { IfOk result (λ item. item ≡ slice_index_or self.old at item) }
        ensures ok { OnOk result (self.new ≡ remove self.old at) }
        ensures err { OnErr result (self.new ≡ self.old) }
    {
        let item = take(&mut self.blocks, at)?;
        self.len -= 1;
        Ok(item)
    }
}

/// The number of the block of that place where all blocks before it are full, as in a list that grew at its end.
fn block_if_full<const BLOCK: usize>(at: usize) -> usize {
    match at.checked_div(BLOCK) {
        Some(number) => number,
        None => 0,
    }
}

/// Sees to it that there is a block in which the place is, and that it isn't full.
fn make_room<T: Share, const BLOCK: usize>(
    blocks: &mut Blocks<T>,
    at: usize,
    len: usize,
) -> Result<(), Memory>
    requires { len ≡ length (joined blocks.old) }
    ensures same { joined blocks.new ≡ joined blocks.old }
    ensures some { OnOk result (0 < length blocks.new) }
{
    if blocks.count() == 0 {
        return blocks.add_empty(len);
    }
    let number = blocks.block_of(at);
    if blocks.items(number).len() < BLOCK {
        return Ok(());
    }
    // After the last item a block begins anew, so that the blocks of a list that grows at its end are full.
    if at == len {
        return blocks.add_empty(len);
    }
    blocks.split(number)
}

/// Puts the item at that place of the list.
fn put<T: Share>(blocks: &mut Blocks<T>, at: usize, item: T) -> Result<(), Memory>
    requires some { 0 < length blocks.old }
    requires place { at ≤ length (joined blocks.old) }
    requires room { length (joined blocks.old) < 2 ^ 64 - 1 }
    ensures ok { OnOk result (joined blocks.new ≡ insert (joined blocks.old) at item) }
    ensures err { OnErr result (blocks.new ≡ blocks.old) }
{
    let number = blocks.block_of(at);
    let offset = at - blocks.start(number);
    blocks.put(number, offset, item)?;
    Ok(())
}

/// Puts the item in the place of the one at that place of the list, in the block of that number or another one.
fn replace<T: Share>(
    blocks: &mut Blocks<T>,
    likely: usize,
    at: usize,
    item: T,
) -> Result<(), Memory>
    requires { at < length (joined blocks.old) }
    ensures ok { OnOk result (joined blocks.new ≡ slice_set (joined blocks.old) at item) }
    ensures err { OnErr result (blocks.new ≡ blocks.old) }
{
    let number = blocks.block_near(at, likely);
    let offset = at - blocks.start(number);
    blocks.replace(number, offset, item)?;
    Ok(())
}

/// Takes the item at that place of the list out, and its block where it was the last one there.
fn take<T: Share>(blocks: &mut Blocks<T>, at: usize) -> Result<T, Memory>
    requires { at < length (joined blocks.old) }
    ensures item { IfOk result (λ item. item ≡ slice_index_or (joined blocks.old) at item) }
    ensures ok { OnOk result (joined blocks.new ≡ remove (joined blocks.old) at) }
    ensures err { OnErr result (joined blocks.new ≡ joined blocks.old) }
{
    let number = blocks.block_of(at);
    let offset = at - blocks.start(number);
    let item = blocks.take(number, offset)?;
    blocks.forget_if_empty(number);
    Ok(item)
}
