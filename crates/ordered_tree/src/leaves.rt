ghost use Rattle.std.specs.Prelude.{◌≡◌, ◌++◌, ◌∷◌, [], Some, IfOk, OnOk};
ghost use Rattle.text_words.specs.Words.{words};
ghost use Rattle.ordered_tree.specs.Leaves.{texts, texts_of, leaf_of, leaves_after, last_leaf};
ghost use Rattle.ordered_tree.specs.Slots.{IsRow, row, node_at};

use crate::leaf::LeafWords;
use crate::slot::Held;
use crate::slots::Slots;
use crate::{Leaves, NodeRef};
use ft_base::{LeafId, Memory};
use std::alloc::Global;
use text_list::TextList;
use text_words::words_of;

/// Puts the leaves of a node to the end, and gives the last one.
#[cycle(leaves)]
pub(crate) fn add_leaves(
    alloc: Global,
    slots: &Slots,
    here: NodeRef,
    last: Option<LeafId>,
    leaves: &mut Leaves,
) -> Result<Option<LeafId>, Memory>
    requires { IsRow slots.now (Some here) }
    ensures leaves { OnOk result (leaves.new ≡ leaves.old ++ leaves_after last (texts (node_at slots.now here))) }
    ensures last { IfOk result (λ new. new ≡ last_leaf last (texts (node_at slots.now here))) }
{
    let slot = slots.get(here.0 as usize);
    match slot.held {
        Held::Text { text } => {
            let leaf = LeafId(here.0);
            push_leaf(alloc, leaf, last, text.as_str(), leaves)?;
            Ok(Some(leaf))
        }
        Held::Element { .. } => add_all_leaves(alloc, slots, slot.first_child, last, leaves),
        Held::Free => unreachable!(),
    }
}

/// Puts the leaves of the nodes from a link on to the end, and gives the last one.
#[cycle(leaves)]
fn add_all_leaves(
    alloc: Global,
    slots: &Slots,
    first: Option<NodeRef>,
    last: Option<LeafId>,
    leaves: &mut Leaves,
) -> Result<Option<LeafId>, Memory>
    requires { IsRow slots.now first }
    ensures leaves { OnOk result (leaves.new ≡ leaves.old ++ leaves_after last (texts_of (row slots.now first))) }
    ensures last { IfOk result (λ new. new ≡ last_leaf last (texts_of (row slots.now first))) }
{
    let mut before = last;
    let mut link = first;
    while let Some(here) = link {
        before = add_leaves(alloc, slots, here, before, leaves)?;
        link = slots.get(here.0 as usize).around.next;
    }
    Ok(before)
}

/// Puts the leaf of a text to the end.
fn push_leaf(
    alloc: Global,
    leaf: LeafId,
    after: Option<LeafId>,
    text: &str,
    leaves: &mut Leaves,
) -> Result<(), Memory>
    ensures { OnOk result (leaves.new ≡ leaves.old ++ record { leaf = leaf; after = after; words = words text.now } ∷ []) }
{
    let words = list_words(alloc, text)?;
    leaves.push(LeafWords { leaf, after, words })?;
    Ok(())
}

/// The words of a text.
fn list_words(alloc: Global, text: &str) -> Result<TextList, Memory>
    ensures { IfOk result (λ list. list ≡ words text.now) }
{
    let pieces = words_of(alloc, text)?;
    let mut list = TextList::with_capacity(alloc, text.len())?;
    for piece in pieces.as_slice() {
        list.push(&text[piece.from..piece.to])?;
    }
    Ok(list)
}
