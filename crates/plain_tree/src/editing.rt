//! Edits of a tree at a place.

ghost use Rattle.std.specs.Prelude.{◌≡◌, ◌≤◌, ◌<◌, ◌↔◌, List, ℕ, Err, drop, false, length, map, slice_index_or, true, IsTrue, OnErr, OnOk};
ghost use Rattle.plain_tree.specs.Document.{are_joined, element, is_document, is_joined, is_text, nodes};
ghost use Rattle.plain_tree.specs.Edits.{at_child, at_place, holds_of_child, joined, names_element as place_names_element, only};
ghost use Rattle.plain_tree.specs.View.{node};
ghost use Rattle.plain_tree.specs.declared.place.PlaceFault.TheVariants.{NoSuchPlace};
ghost use Rattle.plain_tree.specs.declared.tree.Attr.{Attr};
ghost use Rattle.plain_tree.specs.steps.Changes.{beside_content, changed, may_change as place_allows, with_content};

use crate::change::{Change, End, Side};
use crate::place::PlaceFault;
use crate::replacing::replace_range;
use crate::tree::{Kids, Tree};
use ft_base::{Line, Memory};
use std::alloc::Global;
use std::mem::replace;

/// Makes the change at the place, if the document has it. After a fault the document is as it was.
pub(crate) fn edit(
    alloc: Global,
    root: &mut Tree,
    place: &[u32],
    change: Change,
    content: Kids,
) -> Result<(), PlaceFault>
    requires { IsTrue (is_document (node root.old)) }
    ensures edited { OnOk result (only (node root.new) ≡ joined (at_place (changed change (nodes (map node content))) place.now (node root.old))) }
    ensures document { IsTrue (is_document (node root.new)) }
    ensures kept { OnErr result (node root.new ≡ node root.old) }
    ensures no_such_place { result ≡ Err NoSuchPlace ↔ (place_allows change place.now (node root.old) ≡ false) }
{
    if !may_change(root, place, change) {
        drop(content);
        return Err(PlaceFault::NoSuchPlace);
    }
    let tree = replace(root, hole(alloc));
    let (tree, outcome) = edit_tree(alloc, tree, place, change, content);
    *root = tree;
    match outcome {
        Ok(()) => Ok(()),
        Err(Memory) => Err(PlaceFault::Memory),
    }
}

/// What stands for a tree that is taken out to be changed. It takes no memory.
fn hole(alloc: Global) -> Tree {
    Tree::Text {
        text: Line::from_string(String::new(alloc)),
    }
}

/// Whether the place names an element at which the change may be made.
fn may_change(root: &Tree, place: &[u32], change: Change) -> bool
    ensures { result ≡ place_allows change place.now (node root.now) }
{
    match change {
        Change::Into(_) => names_element(root, place),
        Change::Beside(_) => !place.is_empty() && names_element(root, place),
    }
}

/// Whether the place below a node names an element.
#[cycle(naming)]
#[tactic(auto, using(crate::proofs::Views::views))]
fn names_element(tree: &Tree, place: &[u32]) -> bool
    ensures { result ≡ place_names_element place.now (node tree.now) }
{
    match tree {
        Tree::Text { .. } => false,
        Tree::Elem { kids, .. } => names_below(kids, place),
    }
}

/// Whether the place below an element with these children names an element.
#[cycle(naming)]
fn names_below(kids: &Kids, place: &[u32]) -> bool
    ensures { (name : List ℕ) (attrs : List Attr) → result ≡ place_names_element place.now (element name attrs (nodes (map node kids.now))) }
{
    if place.is_empty() {
        return true;
    }
    let number = place[0] as usize;
    if number == 0 {
        return false;
    }
    if kids.len() < number {
        return false;
    }
    names_element(kids.get(number - 1), &place[1..])
}

/// The tree with the change at the place, which it has. Where memory runs out, the tree is as it was.
#[cycle(editing)]
#[tactic(auto, using(crate::proofs::Views::views))]
fn edit_tree(
    alloc: Global,
    tree: Tree,
    place: &[u32],
    change: Change,
    content: Kids,
) -> (Tree, Result<(), Memory>)
    requires allowed { place_allows change place.now (node tree) ≡ true }
    requires joined { IsTrue (is_joined (node tree)) }
    ensures edited { OnOk result.1 (only (node result.0) ≡ joined (at_place (changed change (nodes (map node content))) place.now (node tree))) }
    ensures element { is_text (node result.0) ≡ false }
    ensures kept { OnErr result.1 (node result.0 ≡ node tree) }
{
    match tree {
        Tree::Text { text } => {
            drop(content);
            (Tree::Text { text }, Ok(()))
        }
        Tree::Elem { name, attrs, kids } => {
            let mut row = kids.into_vec();
            let outcome = edit_row(alloc, &mut row, place, change, content);
            let kids = Kids::from_vec(row);
            (Tree::Elem { name, attrs, kids }, outcome)
        }
    }
}

/// Makes the change among the children of an element, at the place below it.
#[cycle(editing)]
fn edit_row(
    alloc: Global,
    row: &mut Vec<Tree>,
    place: &[u32],
    change: Change,
    content: Kids,
) -> Result<(), Memory>
    requires allowed { (name : List ℕ) (attrs : List Attr) → place_allows change place.now (element name attrs (nodes (map node row.old.items))) ≡ true }
    requires joined { IsTrue (are_joined (nodes (map node row.old.items))) }
    ensures edited { OnOk result ((name : List ℕ) (attrs : List Attr) → only (element name attrs (nodes (map node row.new.items)))
        ≡ joined (at_place (changed change (nodes (map node content))) place.now (element name attrs (nodes (map node row.old.items))))) }
    ensures kept { OnErr result (nodes (map node row.new.items) ≡ nodes (map node row.old.items)) }
{
    match change {
        Change::Into(end) => {
            if place.is_empty() {
                edit_ends(alloc, row, end, content)
            } else {
                edit_below(alloc, row, place, change, content)
            }
        }
        Change::Beside(side) => {
            if place.len() == 1 {
                edit_beside(alloc, row, place[0] as usize, side, content)
            } else {
                edit_below(alloc, row, place, change, content)
            }
        }
    }
}

/// Makes the change in or below the child with which the place begins.
#[cycle(editing)]
fn edit_below(
    alloc: Global,
    row: &mut Vec<Tree>,
    place: &[u32],
    change: Change,
    content: Kids,
) -> Result<(), Memory>
    requires some { 0 < length place.now }
    requires allowed { holds_of_child (place_allows change (drop 1 place.now)) (slice_index_or place.now 0 0) (nodes (map node row.old.items)) ≡ true }
    requires joined { IsTrue (are_joined (nodes (map node row.old.items))) }
    ensures edited { OnOk result (nodes (map node row.new.items)
        ≡ joined (at_child (at_place (changed change (nodes (map node content))) (drop 1 place.now))
        (slice_index_or place.now 0 0) (nodes (map node row.old.items)))) }
    ensures kept { OnErr result (nodes (map node row.new.items) ≡ nodes (map node row.old.items)) }
{
    let number = place[0] as usize - 1;
    let tree = replace(&mut row[number], hole(alloc));
    let (tree, outcome) = edit_tree(alloc, tree, &place[1..], change, content);
    row[number] = tree;
    outcome
}

/// Inserts content before the children or after them.
fn edit_ends(alloc: Global, row: &mut Vec<Tree>, end: End, content: Kids) -> Result<(), Memory>
    requires { IsTrue (are_joined (nodes (map node row.old.items))) }
    ensures edited { OnOk result ((name : List ℕ) (attrs : List Attr) → only (element name attrs (nodes (map node row.new.items)))
        ≡ joined (with_content end (nodes (map node content)) (element name attrs (nodes (map node row.old.items))))) }
    ensures kept { OnErr result (row.new.items ≡ row.old.items) }
{
    match end {
        End::First => replace_range(alloc, row, 0, 0, content),
        End::Last => {
            let count = row.len();
            replace_range(alloc, row, count, count, content)
        }
    }
}

/// Puts content before the child of a number, counted from 1, after it, or in its place.
fn edit_beside(
    alloc: Global,
    row: &mut Vec<Tree>,
    number: usize,
    side: Side,
    content: Kids,
) -> Result<(), Memory>
    requires some { 0 < number }
    requires within { number ≤ length row.old.items }
    requires joined { IsTrue (are_joined (nodes (map node row.old.items))) }
    ensures edited { OnOk result (nodes (map node row.new.items)
        ≡ joined (at_child (beside_content side (nodes (map node content))) number (nodes (map node row.old.items)))) }
    ensures kept { OnErr result (row.new.items ≡ row.old.items) }
{
    match side {
        Side::Before => replace_range(alloc, row, number - 1, number - 1, content),
        Side::After => replace_range(alloc, row, number, number, content),
        Side::Instead => replace_range(alloc, row, number - 1, number, content),
    }
}
