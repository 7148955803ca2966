//! What an edit changed, by the texts of the document of before and of that after it.

ghost use Rattle.std.specs.Prelude.{◌≡◌, ◌≢◌, ◌<◌, ◌++◌, All, AllPairs, IfOk, OnOk, filter, length, map, not, replicate, slice_set, None, Some};
ghost use Rattle.ordered_tree.specs.Leaves.{leaf_of, text_of, texts, texts_of};
ghost use Rattle.ordered_tree.specs.RefView.{ref_node, ref_nodes};
ghost use Rattle.ordered_tree.specs.Stands.{references};
ghost use Rattle.text_words.specs.Words.{words};
ghost use Rattle.tree_edits.specs.Changed as spec;
ghost use Rattle.tree_edits.specs.Changed.{put_by};
ghost use Rattle.tree_edits.specs.steps.TextTable.{is_held};

use crate::change::Change;
use ft_base::{LeafId, Memory};
use ordered_tree::{DocTree, LeafIds, LeafWords, Leaves, RefTree, TextAt};
use std::alloc::Global;
use text_list::TextList;
use text_words::words_of;

/// The texts of a document, in its order and by the numbers of their references.
#[derive(Drop)]
struct Texts<'a> {
    list: Vec<TextAt<'a>>,
    table: Vec<Option<TextAt<'a>>>,
}

/// What changed as a document in slots became the other, whose references are below the number.
pub(crate) fn change_from(
    alloc: Global,
    old: &DocTree,
    new: &RefTree,
    new_size: usize,
) -> Result<Change, Memory>
    requires order { spec.KeepsOrder old.now.root (ref_node new.now) }
    requires below { All (λ r. r.0 < new_size) (references (ref_node new.now)) }
    ensures { IfOk result (λ change. spec.Made old.now.root change (ref_node new.now)) }
{
    let old = texts_in_slots(alloc, old)?;
    let new = texts_in(alloc, new, new_size)?;
    change_between(alloc, &old, &new)
}

/// The texts of a document in slots.
fn texts_in_slots<'a>(alloc: Global, tree: &'a DocTree) -> Result<Texts<'a>, Memory>
    ensures list { IfOk result (λ made. map text_of made.list.items ≡ texts tree.now.root) }
    ensures table { IfOk result (λ made. (t : spec.Text) → is_held made.table.items t ≡ spec.stays (texts tree.now.root) t) }
{
    // No two nodes have one reference, as the clauses of `root` say.
    let _root = tree.root();
    let list = tree.all_texts()?;
    let table = table_of(alloc, list.as_slice(), tree.slot_count())?;
    Ok(Texts { list, table })
}

/// The texts of a document whose references are below the number.
fn texts_in<'a>(alloc: Global, tree: &'a RefTree, size: usize) -> Result<Texts<'a>, Memory>
    requires apart { AllPairs (λ a b. a ≢ b) (references (ref_node tree.now)) }
    requires below { All (λ r. r.0 < size) (references (ref_node tree.now)) }
    ensures list { IfOk result (λ made. map text_of made.list.items ≡ texts (ref_node tree.now)) }
    ensures table { IfOk result (λ made. (t : spec.Text) → is_held made.table.items t ≡ spec.stays (texts (ref_node tree.now)) t) }
{
    let mut list = Vec::new(alloc);
    add_texts(tree, &mut list)?;
    let table = table_of(alloc, list.as_slice(), size)?;
    Ok(Texts { list, table })
}

/// What changed as the texts became others.
fn change_between(alloc: Global, old: &Texts<'_>, new: &Texts<'_>) -> Result<Change, Memory>
    ensures { IfOk result (λ change. change ≡ record {
      taken = map (λ t. leaf_of t.0) (filter (λ t. not (is_held new.now.table.items t)) (map text_of old.now.list.items));
      put = put_by (is_held old.now.table.items) None (map text_of new.now.list.items);
    }) }
{
    let taken = gone(alloc, old.list.as_slice(), &new.table)?;
    match come(alloc, new.list.as_slice(), &old.table) {
        Ok(put) => Ok(Change { taken, put }),
        Err(memory) => {
            drop(taken);
            Err(memory)
        }
    }
}

/// Puts the texts of a node to the end.
#[cycle(listing)]
#[tactic(auto, using(crate::proofs::RowsJoined::ref_views))]
fn add_texts<'a>(tree: &'a RefTree, list: &mut Vec<TextAt<'a>>) -> Result<(), Memory>
    ensures { OnOk result (map text_of list.new.items ≡ map text_of list.old.items ++ texts (ref_node tree.now)) }
{
    match tree {
        RefTree::Text { node, text } => {
            list.push(TextAt {
                node: *node,
                text: text.as_str(),
            })?;
            Ok(())
        }
        RefTree::Element { kids, .. } => add_all_texts(kids.as_slice(), list),
    }
}

/// The same of nodes.
#[cycle(listing)]
fn add_all_texts<'a>(trees: &'a [RefTree], list: &mut Vec<TextAt<'a>>) -> Result<(), Memory>
    ensures { OnOk result (map text_of list.new.items ≡ map text_of list.old.items ++ texts_of (ref_nodes (map ref_node trees.now))) }
{
    for tree in trees {
        add_texts(tree, list)?;
    }
    Ok(())
}

/// The texts by the numbers of their references, of which each has its own.
fn table_of<'a>(
    alloc: Global,
    texts: &[TextAt<'a>],
    size: usize,
) -> Result<Vec<Option<TextAt<'a>>>, Memory>
    requires apart { AllPairs (λ a b. a ≢ b) (map (λ t. t.node) texts.now) }
    requires below { All (λ r. r.0 < size) (map (λ t. t.node) texts.now) }
    ensures { IfOk result (λ table. (t : spec.Text) → is_held table.items t ≡ spec.stays (map text_of texts.now) t) }
{
    let mut table = empty_table(alloc, size)?;
    for text in texts {
        hold(&mut table, *text);
    }
    Ok(table)
}

/// Puts a text where the number of its reference is.
fn hold<'a>(table: &mut Vec<Option<TextAt<'a>>>, text: TextAt<'a>)
    requires { text.node.0 < length table.old.items }
    ensures { table.new.items ≡ slice_set table.old.items text.entry.node.0 (Some text.entry) }
{
    table[text.node.0 as usize] = Some(text);
}

/// A table of so many numbers without texts.
fn empty_table<'a>(alloc: Global, size: usize) -> Result<Vec<Option<TextAt<'a>>>, Memory>
    ensures { IfOk result (λ table. table.items ≡ replicate size None) }
{
    Ok(vec![in alloc; None; size]?)
}

/// Whether the table has the text, with its reference and its bytes.
fn is_held(table: &Vec<Option<TextAt<'_>>>, text: &TextAt<'_>) -> bool
    ensures { result ≡ is_held table.now.items (text_of text.now) }
{
    let number = text.node.0 as usize;
    if number >= table.len() {
        return false;
    }
    match &table[number] {
        Some(other) => other.node.0 == text.node.0 && text.text == other.text,
        None => false,
    }
}

/// The leaves of the texts that the others don't have.
fn gone(
    alloc: Global,
    texts: &[TextAt<'_>],
    others: &Vec<Option<TextAt<'_>>>,
) -> Result<LeafIds, Memory>
    ensures { IfOk result (λ ids. ids ≡ map (λ t. leaf_of t.0) (filter (λ t. not (is_held others.now.items t)) (map text_of texts.now))) }
{
    let mut leaves = LeafIds::new(alloc);
    for text in texts {
        if !is_held(others, text) {
            leaves.push(LeafId(text.node.0))?;
        }
    }
    Ok(leaves)
}

/// The leaves of the texts that the others don't have, with their words, each directly after the leaf of the text before it.
fn come(
    alloc: Global,
    texts: &[TextAt<'_>],
    others: &Vec<Option<TextAt<'_>>>,
) -> Result<Leaves, Memory>
    ensures { IfOk result (λ leaves. leaves ≡ put_by (is_held others.now.items) None (map text_of texts.now)) }
{
    let mut leaves = Leaves::new(alloc);
    let mut last = None;
    for text in texts {
        let leaf = LeafId(text.node.0);
        if !is_held(others, text) {
            let words = list_words(alloc, text.text)?;
            leaves.push(LeafWords {
                leaf,
                after: last,
                words,
            })?;
        }
        last = Some(leaf);
    }
    Ok(leaves)
}

/// The words of a text.
fn list_words(alloc: Global, text: &str) -> Result<TextList, Memory>
    ensures { IfOk result (λ list. list ≡ words text.now) }
{
    let pieces = words_of(alloc, text)?;
    let mut list = TextList::with_capacity(alloc, text.len())?;
    for piece in pieces.as_slice() {
        list.push(&text[piece.from..piece.to])?;
    }
    Ok(list)
}
