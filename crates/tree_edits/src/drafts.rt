//! Documents that edits made, looked at before they are put into slots.

ghost use Rattle.std.specs.Prelude.{◌≡◌, nat_lt, IfOk};
ghost use Rattle.doc_grammar.specs.Limits.{height, node_count};
ghost use Rattle.ordered_tree.specs.Counts.{element_depth, word_count};
ghost use Rattle.ordered_tree.specs.Numbered.{plain};
ghost use Rattle.ordered_tree.specs.RefView.{ref_node};
ghost use Rattle.tree_edits.specs.Changed.{KeepsOrder, Made};
ghost use Rattle.tree_edits.specs.Fitting.{FitsSlots};
ghost use Rattle.tree_edits.specs.steps.Drafting.{IsSizeOf};

use crate::change::Change;
use crate::changing::change_from;
use crate::measuring::Size;
use ft_base::Memory;
use ordered_tree::{DocTree, RefTree};
use std::alloc::Global;

/// The most words that a document in slots has.
const MOST_WORDS: usize = 2_147_483_647;

/// The document that an edit makes of a tree, before it is put into slots.
#[derive(Drop)]
pub struct Draft {
    pub root: RefTree,
    pub(crate) slots: usize,
    pub(crate) size: Size,
    ghost fits: { FitsSlots (ref_node root) slots },
    ghost sized: { IsSizeOf size (ref_node root) },
}

impl Draft {
    /// How many elements stand in one another, at most.
    pub fn depth(&self) -> usize
        ensures depth { result ≡ element_depth (plain (ref_node self.now.root)) }
        ensures height { result ≡ height (plain (ref_node self.now.root)) }
    {
        self.size.levels
    }

    /// How many nodes there are.
    pub fn node_count(&self) -> usize
        ensures { result ≡ node_count (plain (ref_node self.now.root)) }
    {
        self.size.nodes
    }

    /// Whether the document has more tokens than so many.
    pub fn has_more_tokens_than(&self, most: usize) -> bool
        ensures { result ≡ nat_lt most (word_count (plain (ref_node self.now.root))) }
    {
        self.size.words > most as u128
    }

    /// What the edit changed of the document in slots of which this is the draft.
    pub fn change(&self, alloc: Global, old: &DocTree) -> Result<Change, Memory>
        requires { KeepsOrder old.now.root (ref_node self.now.root) }
        ensures { IfOk result (λ change. Made old.now.root change (ref_node self.now.root)) }
    {
        change_from(alloc, old, &self.root, self.slots)
    }

    /// The document in slots, which shares with the tree of before what both have. Where it has 2^31 words or more, there is no
    /// memory for it.
    pub fn into_tree(self, alloc: Global, before: &DocTree) -> Result<DocTree, Memory>
        ensures { IfOk result (λ tree. tree ≡ record { root = ref_node self.root; slots = self.slots }) }
    {
        if self.has_more_tokens_than(MOST_WORDS) {
            drop(self);
            return Err(Memory);
        }
        let mut tree = DocTree::from_referenced(alloc, self.root, self.slots)?;
        tree.share_slots_of(before);
        Ok(tree)
    }
}
