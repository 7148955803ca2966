//! Blocks that two vectors have alike, kept once.

ghost use Rattle.std.specs.Prelude.{◌≡◌, IsTrue};

use crate::block::Block;
use crate::{Same, SharedVector};

impl<T: Same> SharedVector<T> {
    /// Takes each block that the other vector has alike at the same place from it, so that the two share the block. The items
    /// stay as they are.
    pub fn share_blocks_of(&mut self, other: &SharedVector<T>)
        ensures { self.new ≡ self.old }
    {
        share_same(&mut self.blocks, &other.blocks);
    }
}

/// Takes each block that the others have alike at its place from them.
fn share_same<T: Same>(blocks: &mut Vec<Block<T>>, others: &Vec<Block<T>>)
    ensures { blocks.new.items ≡ blocks.old.items }
{
    let count = blocks.len().min(others.len());
    for number in 0..count {
        if are_same(blocks[number].as_slice(), others[number].as_slice()) {
            if let Ok(block) = others[number].share() {
                blocks[number] = block;
            }
        }
    }
}

/// Whether all items are known to be the same as the others.
fn are_same<T: Same>(items: &[T], others: &[T]) -> bool
    ensures { IsTrue result → items.now ≡ others.now }
{
    if items.len() != others.len() {
        return false;
    }
    for at in 0..items.len() {
        if !items[at].is_same(&others[at]) {
            return false;
        }
    }
    true
}
