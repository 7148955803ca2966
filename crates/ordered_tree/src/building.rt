ghost use Rattle.std.specs.Prelude.{◌≡◌, ◌+◌, ◌<◌, ◌^◌, ◌∷◌, ◌++◌, [], length, map, max, slice_set, option_map, None, Err, IfOk, OnOk};
ghost use Rattle.doc_grammar.specs.Limits.{node_count, nodes_count};
ghost use Rattle.plain_tree.specs.Document.{element, text, nodes};
ghost use Rattle.plain_tree.specs.View.{node};
ghost use Rattle.tokenizer.specs.Parts.{parts};
ghost use Rattle.text_words.specs.Words.{words};
ghost use Rattle.tokenizer.specs.steps.StartsLeft.{words_seen};
ghost use Rattle.ordered_tree.specs.Counts.{word_count, word_counts, element_depth, element_depths};
ghost use Rattle.ordered_tree.specs.Leaves.{texts, texts_of};
ghost use Rattle.ordered_tree.specs.Numbered.{last_of};
ghost use Rattle.ordered_tree.specs.Numbering.{numbered, children_numbered, next_sibling};
ghost use Rattle.ordered_tree.specs.Slots.{slot, slot_at};
ghost use Rattle.ordered_tree.specs.Stands.{stands, child_stands, round_first};
ghost use Rattle.ordered_tree.specs.steps.Gathering.{Gathers, parts_of};

use crate::NodeRef;
use crate::around::Around;
use crate::shared_attrs::SharedAttrs;
use crate::shared_text::SharedText;
use crate::slot::{Held, Slot};
use crate::texts_read::TextsRead;
use ft_base::{Line, Memory};
use plain_tree::{Attrs, Kids, Tree};
use tokenizer::TokenFault;

/// What is known of a node that was added.
#[derive(Clone, Copy)]
pub(crate) struct Added {
    pub(crate) words: u32,
    /// How many elements stand in one another.
    pub(crate) levels: usize,
}

/// What is known of all children of an element.
#[derive(Clone, Copy)]
struct Row {
    last: Option<NodeRef>,
    words: u32,
    levels: usize,
}

/// Puts the slots of a node and of all below it to the end, in document order, and reads the texts among them.
#[cycle(adding)]
#[tactic(auto, using(crate::proofs::TreeCounts::tree_counts))]
pub(crate) fn add_tree(
    slots: &mut Vec<Slot>,
    read: &mut TextsRead<'_>,
    tree: Tree,
    around: Around,
    is_last: bool,
) -> Result<Added, TokenFault>
    requires few_nodes { length slots.old.items + node_count (node tree) < 2 ^ 31 }
    requires before { around.before ≡ words_seen read.old.starts }
    ensures slots { OnOk result (slots.new.items ≡ slots.old.items ++ map slot (stands
        (record around { next = next_sibling is_last (length slots.old.items + node_count (node tree)) })
        (numbered (length slots.old.items) (node tree)))) }
    ensures words { IfOk result (λ added. added.words ≡ word_count (node tree)) }
    ensures levels { IfOk result (λ added. added.levels ≡ element_depth (node tree)) }
    ensures counted { OnOk result (words_seen read.new.starts ≡ words_seen read.old.starts + word_count (node tree)) }
    ensures gathers { OnOk result (Gathers read.old (texts (numbered (length slots.old.items) (node tree)))
        (parts read.old.abbreviations.now (node tree)) read.new) }
    ensures full { result ≡ Err TokenFault.Tokens → read.old.most < words_seen read.old.starts + word_count (node tree) }
{
    match tree {
        Tree::Text { text } => add_text(slots, read, text, around, is_last),
        Tree::Elem { name, attrs, kids } => {
            add_element(slots, read, name, attrs, kids, around, is_last)
        }
    }
}

/// Puts the slots of an element and of all nodes below it to the end, and reads the texts among them.
#[cycle(adding)]
fn add_element(
    slots: &mut Vec<Slot>,
    read: &mut TextsRead<'_>,
    name: Line,
    attrs: Attrs,
    kids: Kids,
    around: Around,
    is_last: bool,
) -> Result<Added, TokenFault>
    requires few_nodes { length slots.old.items + (1 + nodes_count (nodes (map node kids))) < 2 ^ 31 }
    requires before { around.before ≡ words_seen read.old.starts }
    ensures slots { OnOk result (slots.new.items ≡ slots.old.items ++ map slot (stands
        (record around { next = next_sibling is_last (length slots.old.items + (1 + nodes_count (nodes (map node kids)))) })
        (numbered (length slots.old.items) (element name attrs (nodes (map node kids)))))) }
    ensures words { IfOk result (λ added. added.words ≡ word_counts (nodes (map node kids))) }
    ensures levels { IfOk result (λ added. added.levels ≡ element_depths (nodes (map node kids)) + 1) }
    ensures counted { OnOk result (words_seen read.new.starts ≡ words_seen read.old.starts + word_counts (nodes (map node kids))) }
    ensures gathers { OnOk result (Gathers read.old
        (texts (numbered (length slots.old.items) (element name attrs (nodes (map node kids)))))
        (parts read.old.abbreviations.now (element name attrs (nodes (map node kids)))) read.new) }
    ensures full { result ≡ Err TokenFault.Tokens
        → read.old.most < words_seen read.old.starts + word_counts (nodes (map node kids)) }
{
    let here = slots.len();
    open_element(slots, around)?;
    let name = read.pass_first_tag(name)?;
    let row = add_children(slots, read, kids, NodeRef(here as u32), around.before)?;
    read.pass_tag(name.as_str());
    let attrs = SharedAttrs::new(*slots.allocator(), attrs)?;
    finish(slots, here, Held::Element { name, attrs }, row, is_last);
    Ok(Added {
        words: row.words,
        levels: row.levels + 1,
    })
}

/// Puts the slots of all children, and of all nodes below them, to the end, and reads the texts among them.
#[cycle(adding)]
fn add_children(
    slots: &mut Vec<Slot>,
    read: &mut TextsRead<'_>,
    kids: Kids,
    parent: NodeRef,
    before: u32,
) -> Result<Row, TokenFault>
    requires some { 0 < length slots.old.items }
    requires few_nodes { length slots.old.items + nodes_count (nodes (map node kids)) < 2 ^ 31 }
    requires before { before ≡ words_seen read.old.starts }
    ensures slots { OnOk result (slots.new.items ≡ slots.old.items ++ map slot (child_stands (round_first before parent)
        (children_numbered (length slots.old.items) (nodes (map node kids))))) }
    ensures last { IfOk result (λ row. row.last
        ≡ last_of (children_numbered (length slots.old.items) (nodes (map node kids)))) }
    ensures words { IfOk result (λ row. row.words ≡ word_counts (nodes (map node kids))) }
    ensures levels { IfOk result (λ row. row.levels ≡ element_depths (nodes (map node kids))) }
    ensures counted { OnOk result (words_seen read.new.starts ≡ words_seen read.old.starts + word_counts (nodes (map node kids))) }
    ensures gathers { OnOk result (Gathers read.old
        (texts_of (children_numbered (length slots.old.items) (nodes (map node kids))))
        (parts_of read.old.abbreviations.now (nodes (map node kids))) read.new) }
    ensures full { result ≡ Err TokenFault.Tokens
        → read.old.most < words_seen read.old.starts + word_counts (nodes (map node kids)) }
{
    let mut around = Around::first_child(parent, before);
    let mut levels = 0;
    let mut left = kids.len();
    for kid in kids.into_vec() {
        left -= 1;
        let here = NodeRef(slots.len() as u32);
        let added = add_tree(slots, read, kid, around, left == 0)?;
        around = around.following(here, added.words);
        levels = greater(levels, added.levels);
    }
    Ok(Row {
        last: around.previous,
        words: around.before - before,
        levels,
    })
}

/// Puts the slot of a text to the end, and reads it.
fn add_text(
    slots: &mut Vec<Slot>,
    read: &mut TextsRead<'_>,
    content: Line,
    around: Around,
    is_last: bool,
) -> Result<Added, TokenFault>
    requires few_nodes { length slots.old.items + 1 < 2 ^ 31 }
    ensures slots { OnOk result (slots.new.items ≡ slots.old.items ++ map slot (stands
        (record around { next = next_sibling is_last (length slots.old.items + 1) })
        (numbered (length slots.old.items) (text content)))) }
    ensures words { IfOk result (λ added. added.words ≡ length (words content)) }
    ensures levels { IfOk result (λ added. added.levels ≡ 0) }
    ensures counted { OnOk result (words_seen read.new.starts ≡ words_seen read.old.starts + length (words content)) }
    ensures gathers { OnOk result (Gathers read.old (texts (numbered (length slots.old.items) (text content)))
        (parts read.old.abbreviations.now (text content)) read.new) }
    ensures full { result ≡ Err TokenFault.Tokens → read.old.most < words_seen read.old.starts + length (words content) }
{
    let here = slots.len();
    let text = read.pass_text(NodeRef(here as u32), content)?;
    let words = text.word_count() as u32;
    let next = sibling(is_last, here + 1);
    push_text(slots, text, Around { next, ..around }, words)?;
    Ok(Added { words, levels: 0 })
}

/// Puts the slot of a text of so many words to the end.
fn push_text(
    slots: &mut Vec<Slot>,
    text: SharedText,
    around: Around,
    words: u32,
) -> Result<(), Memory>
    ensures { OnOk result (slots.new.items ≡ slots.old.items ++ record {
      held = Held.Text text;
      around = around;
      first_child = None;
      last_child = None;
      words = words;
    } ∷ []) }
{
    slots.push(Slot {
        held: Held::Text { text },
        around,
        first_child: None,
        last_child: None,
        words,
    })?;
    Ok(())
}

/// Puts a slot to the end for an element whose children come next.
fn open_element(slots: &mut Vec<Slot>, around: Around) -> Result<(), Memory>
    ensures { OnOk result (slots.new.items ≡ slots.old.items ++ record {
      held = Held.Free;
      around = around;
      first_child = None;
      last_child = None;
      words = 0;
    } ∷ []) }
{
    slots.push(Slot {
        held: Held::Free,
        around,
        first_child: None,
        last_child: None,
        words: 0,
    })?;
    Ok(())
}

/// Puts an element, and what its children bring, into its slot, after which all slots are those of nodes below it.
fn finish(slots: &mut Vec<Slot>, here: usize, held: Held, row: Row, is_last: bool)
    requires here { here < length slots.old.items }
    requires few { length slots.old.items < 2 ^ 31 }
    ensures { slots.new.items ≡ slice_set slots.old.items here (record (slot_at slots.old.items (record { 0 = here })) {
      held = held;
      around = record (slot_at slots.old.items (record { 0 = here })).around { next = next_sibling is_last (length slots.old.items) };
      first_child = option_map (λ _. record { 0 = here + 1 }) row.last;
      last_child = row.last;
      words = row.words;
    }) }
{
    let next = sibling(is_last, slots.len());
    let slot = &mut slots[here];
    slot.held = held;
    slot.around.next = next;
    slot.first_child = first_child(here, row.last);
    slot.last_child = row.last;
    slot.words = row.words;
}

/// The first child of an element of this number, where its last child is known.
fn first_child(here: usize, last: Option<NodeRef>) -> Option<NodeRef>
    requires { here + 1 < 2 ^ 32 }
    ensures { result ≡ option_map (λ _. record { 0 = here + 1 }) last }
{
    match last {
        Some(_) => Some(NodeRef(here as u32 + 1)),
        None => None,
    }
}

/// The sibling after a node, where a number is that of the next node after it and all below it.
fn sibling(is_last: bool, number: usize) -> Option<NodeRef>
    requires { number < 2 ^ 32 }
    ensures { result ≡ next_sibling is_last number }
{
    if is_last {
        None
    } else {
        Some(NodeRef(number as u32))
    }
}

/// The greater of the numbers.
pub(crate) fn greater(left: usize, right: usize) -> usize
    ensures { result ≡ max left right }
{
    if left < right { right } else { left }
}
