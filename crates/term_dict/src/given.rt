//! The entries that ever came into a dictionary, each at its id.
ghost use Rattle.std.specs.Prelude.{◌≡◌, ◌<◌, ◌+◌, ◌^◌, ◌++◌, ◌∷◌, [], length, slice_index_or, IfOk};
ghost use Rattle.index_meaning.specs.Entries.{entry};
ghost use Rattle.shared_list.specs.Blocks.{joined};
ghost use Rattle.term_dict.specs.Given.{IsFilled, block_size};

use crate::entry_block::EntryBlock;
use crate::entry_ref::EntryRef;
use ft_base::Memory;
use std::alloc::Global;
use std::marker::Model;

/// How many entries a block holds at most.
const BLOCK_SIZE: usize = 256;

/// A growing list of entries in blocks, of which all but the last one are full. A copy shares the blocks of the list
/// that it was made of; neither sees a change to the other.
#[derive(Drop)]
pub struct Given {
    blocks: Vec<EntryBlock>,
    len: usize,
}

impl Model for Given {
    ghost use Rattle.std.specs.Prelude.{List};
    ghost use Rattle.index_meaning.specs.Entries.{Entry};
    ghost use Rattle.shared_list.specs.Blocks.{joined};
    ghost use Rattle.term_dict.specs.Given.{IsFilled, IsHeld};

    ghost Value = { List Entry };

    ghost view = { λ inside. joined inside.blocks.items };

    ghost invariant = { λ inside. IsHeld inside.blocks.items inside.len };
}

impl Given {
    /// The empty list.
    pub fn new(alloc: Global) -> Given
        ensures { result ≡ [] }
    {
        Given {
            blocks: Vec::new(alloc),
            len: 0,
        }
    }

    /// The same list once more; no entry is copied.
    pub fn copy(&self) -> Result<Given, Memory>
        ensures { IfOk result (λ copy. copy ≡ self.now) }
    {
        let blocks = shared(*self.blocks.allocator(), &self.blocks)?;
        Ok(Given {
            blocks,
            len: self.len,
        })
    }

    /// How many entries there are.
    pub fn len(&self) -> usize
        ensures { result ≡ length self.now }
    {
        self.len
    }

    /// The entry of that number, counted from 0.
    pub fn get(&self, number: usize) -> EntryRef<'_>
        requires { number < length self.now }
        ensures { result ≡ slice_index_or self.now number result }
    {
        self.blocks[number / BLOCK_SIZE].get(number % BLOCK_SIZE)
    }

    /// The list with one entry more, after the last one.
    pub fn pushed(self, key: &str, word: &str) -> Result<Given, Memory>
        requires { length self + 1 < 2 ^ 64 }
        ensures { IfOk result (λ list. list ≡ self ++ entry key.now word.now ∷ []) }
    {
        let len = self.len + 1;
        let blocks = with_entry(self.blocks, key, word)?;
        Ok(Given { blocks, len })
    }
}

/// The blocks once more; no entry is copied.
fn shared(alloc: Global, blocks: &Vec<EntryBlock>) -> Result<Vec<EntryBlock>, Memory>
    ensures { IfOk result (λ copy. copy.items ≡ blocks.now.items) }
{
    let mut copy = Vec::with_capacity(alloc, blocks.len())?;
    for block in blocks {
        copy.push(block.share()?)?;
    }
    Ok(copy)
}

/// The blocks with one entry more, after the last one.
fn with_entry(blocks: Vec<EntryBlock>, key: &str, word: &str) -> Result<Vec<EntryBlock>, Memory>
    requires { IsFilled blocks.items }
    ensures joined { IfOk result (λ more. joined more.items ≡ joined blocks.items ++ entry key.now word.now ∷ []) }
    ensures filled { IfOk result (λ more. IsFilled more.items) }
{
    let alloc = *blocks.allocator();
    let (mut prefix, last) = with_room(alloc, blocks)?;
    prefix.push(last.pushed(alloc, key, word)?)?;
    Ok(prefix)
}

/// The blocks before the one to which the next entry comes, and that one.
fn with_room(
    alloc: Global,
    blocks: Vec<EntryBlock>,
) -> Result<(Vec<EntryBlock>, EntryBlock), Memory>
    requires { IsFilled blocks.items }
    ensures joined { IfOk result (λ parts. joined (parts.0.items ++ parts.1 ∷ []) ≡ joined blocks.items) }
    ensures filled { IfOk result (λ parts. IsFilled (parts.0.items ++ parts.1 ∷ [])) }
    ensures room { IfOk result (λ parts. length parts.1 < block_size) }
{
    let mut prefix = blocks;
    match prefix.pop() {
        None => Ok((prefix, EntryBlock::new(alloc)?)),
        Some(last) => {
            if last.len() < BLOCK_SIZE {
                return Ok((prefix, last));
            }
            prefix.push(last)?;
            Ok((prefix, EntryBlock::new(alloc)?))
        }
    }
}
