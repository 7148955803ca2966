//! Slots that are filled with the nodes of a document whose references are given.

ghost use Rattle.std.specs.Prelude.{◌≡◌, ◌+◌, ◌<◌, ◌^◌, length, map, IfOk, OnOk};
ghost use Rattle.doc_grammar.specs.Limits.{node_count, nodes_count};
ghost use Rattle.text_words.specs.Words.{words};
ghost use Rattle.ordered_tree.specs.Counts.{word_count, word_counts, element_depth, element_depths};
ghost use Rattle.ordered_tree.specs.Numbered.{element_at, first_of, last_of, plain, plain_children, text_at};
ghost use Rattle.ordered_tree.specs.RefView.{ref_node, ref_nodes};
ghost use Rattle.ordered_tree.specs.Stands.{round_first};
ghost use Rattle.ordered_tree.specs.steps.Placing.{AllBelow, Below, all_placed, placed};

use crate::NodeRef;
use crate::around::Around;
use crate::building::greater;
use crate::ref_tree::{RefKids, RefTree, last_reference};
use crate::shared_attrs::SharedAttrs;
use crate::shared_name::SharedName;
use crate::shared_text::SharedText;
use crate::slot::{Held, Slot};
use ft_base::Memory;

/// What is known of a node that has its slot.
#[derive(Clone, Copy)]
pub(crate) struct Placed {
    pub(crate) words: u32,
    /// How many elements stand in one another.
    pub(crate) levels: usize,
    /// How many nodes there are: the node and all below it.
    pub(crate) nodes: usize,
}

/// What is known of all children of an element.
#[derive(Clone, Copy)]
struct Row {
    first: Option<NodeRef>,
    last: Option<NodeRef>,
    words: u32,
    levels: usize,
    nodes: usize,
}

/// Puts a node and all below it into the slots of their references.
#[cycle(placing)]
#[tactic(auto, using(crate::proofs::RefViews::ref_views))]
pub(crate) fn place_tree(
    slots: &mut Vec<Slot>,
    tree: RefTree,
    around: Around,
) -> Result<Placed, Memory>
    requires below { Below (length slots.old.items) (ref_node tree) }
    requires few_nodes { node_count (plain (ref_node tree)) < 2 ^ 31 }
    requires few_words { around.before + word_count (plain (ref_node tree)) < 2 ^ 31 }
    ensures slots { OnOk result (slots.new.items ≡ placed around (ref_node tree) slots.old.items) }
    ensures words { IfOk result (λ done. done.words ≡ word_count (plain (ref_node tree))) }
    ensures levels { IfOk result (λ done. done.levels ≡ element_depth (plain (ref_node tree))) }
    ensures nodes { IfOk result (λ done. done.nodes ≡ node_count (plain (ref_node tree))) }
{
    match tree {
        RefTree::Text { node, text } => place_text(slots, node, text, around),
        RefTree::Element {
            node,
            name,
            attrs,
            kids,
        } => { place_element(slots, node, name, attrs, kids, around) }
    }
}

/// Puts an element and all nodes below it into the slots of their references.
#[cycle(placing)]
fn place_element(
    slots: &mut Vec<Slot>,
    node: NodeRef,
    name: SharedName,
    attrs: SharedAttrs,
    kids: RefKids,
    around: Around,
) -> Result<Placed, Memory>
    requires here { node.0 < length slots.old.items }
    requires below { AllBelow (length slots.old.items) (ref_nodes (map ref_node kids)) }
    requires few_nodes { 1 + nodes_count (plain_children (ref_nodes (map ref_node kids))) < 2 ^ 31 }
    requires few_words { around.before + word_counts (plain_children (ref_nodes (map ref_node kids))) < 2 ^ 31 }
    ensures slots { OnOk result (slots.new.items
        ≡ placed around (element_at node name attrs (ref_nodes (map ref_node kids))) slots.old.items) }
    ensures words { IfOk result (λ done. done.words ≡ word_counts (plain_children (ref_nodes (map ref_node kids)))) }
    ensures levels { IfOk result (λ done. done.levels ≡ element_depths (plain_children (ref_nodes (map ref_node kids))) + 1) }
    ensures nodes { IfOk result (λ done. done.nodes ≡ 1 + nodes_count (plain_children (ref_nodes (map ref_node kids)))) }
{
    let row = place_children(slots, kids, node, around.before)?;
    slots[node.0 as usize] = Slot {
        held: Held::Element { name, attrs },
        around,
        first_child: row.first,
        last_child: row.last,
        words: row.words,
    };
    Ok(Placed {
        words: row.words,
        levels: row.levels + 1,
        nodes: row.nodes + 1,
    })
}

/// Puts all children, and all nodes below them, into the slots of their references.
#[cycle(placing)]
fn place_children(
    slots: &mut Vec<Slot>,
    kids: RefKids,
    parent: NodeRef,
    before: u32,
) -> Result<Row, Memory>
    requires below { AllBelow (length slots.old.items) (ref_nodes (map ref_node kids)) }
    requires few_nodes { 1 + nodes_count (plain_children (ref_nodes (map ref_node kids))) < 2 ^ 31 }
    requires few_words { before + word_counts (plain_children (ref_nodes (map ref_node kids))) < 2 ^ 31 }
    ensures slots { OnOk result (slots.new.items
        ≡ all_placed (round_first before parent) (ref_nodes (map ref_node kids)) slots.old.items) }
    ensures first { IfOk result (λ row. row.first ≡ first_of (ref_nodes (map ref_node kids))) }
    ensures last { IfOk result (λ row. row.last ≡ last_of (ref_nodes (map ref_node kids))) }
    ensures words { IfOk result (λ row. row.words ≡ word_counts (plain_children (ref_nodes (map ref_node kids)))) }
    ensures levels { IfOk result (λ row. row.levels ≡ element_depths (plain_children (ref_nodes (map ref_node kids)))) }
    ensures nodes { IfOk result (λ row. row.nodes ≡ nodes_count (plain_children (ref_nodes (map ref_node kids)))) }
{
    let mut left = kids.into_vec();
    left.reverse();
    let first = last_reference(left.as_slice());
    let mut around = Around::first_child(parent, before);
    let mut levels = 0;
    let mut nodes = 0;
    while let Some(kid) = left.pop() {
        let node = kid.reference();
        let next = last_reference(left.as_slice());
        let done = place_tree(slots, kid, Around { next, ..around })?;
        around = around.following(node, done.words);
        levels = greater(levels, done.levels);
        nodes += done.nodes;
    }
    Ok(Row {
        first,
        last: around.previous,
        words: around.before - before,
        levels,
        nodes,
    })
}

/// Puts a text into the slot of its reference.
fn place_text(
    slots: &mut Vec<Slot>,
    node: NodeRef,
    text: SharedText,
    around: Around,
) -> Result<Placed, Memory>
    requires here { node.0 < length slots.old.items }
    requires few_words { around.before + length (words text) < 2 ^ 31 }
    ensures slots { OnOk result (slots.new.items ≡ placed around (text_at node text) slots.old.items) }
    ensures words { IfOk result (λ done. done.words ≡ length (words text)) }
    ensures levels { IfOk result (λ done. done.levels ≡ 0) }
    ensures nodes { IfOk result (λ done. done.nodes ≡ 1) }
{
    let words = text.word_count() as u32;
    slots[node.0 as usize] = Slot {
        held: Held::Text { text },
        around,
        first_child: None,
        last_child: None,
        words,
    };
    Ok(Placed {
        words,
        levels: 0,
        nodes: 1,
    })
}
