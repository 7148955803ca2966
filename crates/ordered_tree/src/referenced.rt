//! Documents out of the slots and back, with their references, and references that no node has.

ghost use Rattle.std.specs.Prelude.{◌≡◌, ◌≢◌, ◌+◌, ◌<◌, ◌^◌, ◌++◌, length, map, max, slice_index_or, All, AllPairs, IfOk, IsTrue, Some};
ghost use Rattle.doc_grammar.specs.Limits.{node_count};
ghost use Rattle.plain_tree.specs.Document.{is_document};
ghost use Rattle.ordered_tree.specs.Counts.{word_count};
ghost use Rattle.ordered_tree.specs.Numbered.{plain, reference};
ghost use Rattle.ordered_tree.specs.RefView.{ref_node, ref_nodes};
ghost use Rattle.ordered_tree.specs.Slots.{IsRow, node_at, root_ref, row};
ghost use Rattle.ordered_tree.specs.Stands.{references};
ghost use Rattle.ordered_tree.specs.steps.Parts.{slot_of};

use crate::around::Around;
use crate::free_slots::{free_slots, link_free, spare_refs};
use crate::placing::place_tree;
use crate::ref_tree::{RefKids, RefTree};
use crate::slot::Held;
use crate::slot_core::same_link;
use crate::slots::{SlotAt, Slots};
use crate::{DocTree, NodeRef, NodeRefs};
use ft_base::Memory;
use std::alloc::Global;

impl DocTree {
    /// The document out of the slots, with the references of its nodes. It shares the texts.
    pub fn to_referenced(&self) -> Result<RefTree, Memory>
        ensures { IfOk result (λ tree. ref_node tree ≡ self.now.root) }
    {
        let tree = referenced(self.alloc, &self.slots, NodeRef(0), self.slots.get(0))?;
        Ok(tree)
    }

    /// The document in so many slots, each node in that of its reference. Its names, attributes and texts stay in their memory.
    pub fn from_referenced(alloc: Global, tree: RefTree, slots: usize) -> Result<DocTree, Memory>
        requires rooted { reference (ref_node tree) ≡ root_ref }
        requires document { IsTrue (is_document (plain (ref_node tree))) }
        requires apart { AllPairs (λ a b. a ≢ b) (references (ref_node tree)) }
        requires below { All (λ r. r.0 < slots) (references (ref_node tree)) }
        requires few_slots { slots < 2 ^ 31 }
        requires few_words { word_count (plain (ref_node tree)) < 2 ^ 31 }
        ensures { IfOk result (λ doc. doc ≡ record { root = ref_node tree; slots = slots }) }
    {
        let Ok(mut filled) = free_slots(alloc, slots) else {
            drop(tree);
            return Err(Memory);
        };
        let done = place_tree(&mut filled, tree, Around::root())?;
        let free = link_free(&mut filled);
        let slots = Slots::from_vec(alloc, filled)?;
        Ok(DocTree {
            alloc,
            slots,
            free,
            nodes: done.nodes,
            depth: done.levels,
        })
    }

    /// So many references that no node has: those of free slots come first, so that no more than `max(slot_count, node_count + count)`
    /// slots are needed.
    pub fn spare_references(&self, count: usize) -> Result<NodeRefs, Memory>
        requires { self.now.slots + count < 2 ^ 32 }
        ensures count { IfOk result (λ refs. length refs ≡ count) }
        ensures apart { IfOk result (λ refs. AllPairs (λ a b. a ≢ b) (references self.now.root ++ refs)) }
        ensures below { IfOk result (λ refs. All (λ r. r.0 < max self.now.slots (node_count (plain self.now.root) + count)) refs) }
    {
        spare_refs(self.alloc, &self.slots, self.free, count)
    }
}

/// The node of this reference, whose slot was read, with all that is below it.
#[cycle(referencing)]
fn referenced(
    alloc: Global,
    slots: &Slots,
    here: NodeRef,
    slot: SlotAt<'_>,
) -> Result<RefTree, Memory>
    requires row { IsRow slots.now (Some here) }
    requires slot { slot_of slot ≡ slice_index_or slots.now here.0 (slot_of slot) }
    ensures { IfOk result (λ tree. ref_node tree ≡ node_at slots.now here) }
{
    match slot.held {
        Held::Text { text } => Ok(RefTree::Text {
            node: here,
            text: text.share()?,
        }),
        Held::Element { name, attrs } => Ok(RefTree::Element {
            node: here,
            name: name.share()?,
            attrs: attrs.share()?,
            kids: all_referenced(alloc, slots, slot.first_child, children_expected(&slot))?,
        }),
        Held::Free => unreachable!(),
    }
}

/// The nodes from a link on, in a list that has room for as many as are expected.
#[cycle(referencing)]
fn all_referenced(
    alloc: Global,
    slots: &Slots,
    first: Option<NodeRef>,
    expected: usize,
) -> Result<RefKids, Memory>
    requires { IsRow slots.now first }
    ensures { IfOk result (λ kids. ref_nodes (map ref_node kids) ≡ row slots.now first) }
{
    let mut kids = RefKids::from_vec(Vec::with_capacity(alloc, expected)?);
    let mut link = first;
    while let Some(here) = link {
        let slot = slots.get(here.0 as usize);
        kids.push(referenced(alloc, slots, here, slot)?)?;
        link = slot.around.next;
    }
    Ok(kids)
}

/// How many children a node is expected to have: one where its first child is its last, whose list then takes no more memory
/// than it needs.
fn children_expected(slot: &SlotAt<'_>) -> usize {
    match slot.first_child {
        Some(_) if same_link(slot.first_child, slot.last_child) => 1,
        Some(_) => 4,
        None => 0,
    }
}
