//! Texts that come beside each other are joined, and empty ones dropped.

ghost use Rattle.std.specs.Prelude.{◌≡◌, ◌<◌, ◌∷◌, ◌++◌, [], length, map, IfOk, IsTrue, OnOk};
ghost use Rattle.plain_tree.specs.Document.{are_joined, nodes, text};
ghost use Rattle.plain_tree.specs.Edits.{append, joined, only};
ghost use Rattle.plain_tree.specs.View.{node};
ghost use Rattle.plain_tree.specs.declared.tree.Tree.TheVariants.{Text};

use crate::tree::{Kids, Tree};
use ft_base::{Line, Memory};
use std::alloc::Global;

/// Puts nodes to the end of others that are joined already, and joins their texts. Where memory runs out, the others are given up.
#[cycle(joining)]
#[tactic(auto, using(crate::proofs::Views::views))]
pub(crate) fn join_all(alloc: Global, list: &mut Vec<Tree>, more: Kids) -> Result<(), Memory>
    requires { IsTrue (are_joined (nodes (map node list.old.items))) }
    ensures all { OnOk result (nodes (map node list.new.items) ≡ joined (append (nodes (map node list.old.items)) (nodes (map node more)))) }
{
    for tree in more.into_vec() {
        join_tree(alloc, list, tree)?;
    }
    Ok(())
}

/// Puts a node to the end of others that are joined already, and joins their texts.
#[cycle(joining)]
#[tactic(auto, using(crate::proofs::Views::views))]
fn join_tree(alloc: Global, list: &mut Vec<Tree>, tree: Tree) -> Result<(), Memory>
    ensures { OnOk result (IsTrue (are_joined (nodes (map node list.old.items)))
        → nodes (map node list.new.items) ≡ joined (append (nodes (map node list.old.items)) (only (node tree)))) }
{
    match tree {
        Tree::Text { text } => join_text(list, text),
        Tree::Elem { name, attrs, kids } => {
            let mut joined = Vec::new(alloc);
            join_all(alloc, &mut joined, kids)?;
            list.push(Tree::Elem {
                name,
                attrs,
                kids: Kids::from_vec(joined),
            })?;
            Ok(())
        }
    }
}

/// Puts a text to the end of nodes that are joined already, and joins it with a text that stands there. Where memory runs out, the
/// nodes are given up.
#[tactic(auto, using(crate::proofs::Views::views))]
fn join_text(list: &mut Vec<Tree>, more: Line) -> Result<(), Memory>
    ensures { OnOk result (IsTrue (are_joined (nodes (map node list.old.items)))
        → nodes (map node list.new.items) ≡ joined (append (nodes (map node list.old.items)) (only (text more)))) }
{
    if more.as_str().is_empty() {
        return Ok(());
    }
    match list.pop() {
        Some(last) => join_after(list, last, more),
        None => {
            push_text(list, more)?;
            Ok(())
        }
    }
}

/// Puts a node and a text after it to the end, as one text where the node is one.
#[tactic(auto, using(crate::proofs::Views::views))]
fn join_after(list: &mut Vec<Tree>, last: Tree, more: Line) -> Result<(), Memory>
    requires { 0 < length more }
    ensures { OnOk result (IsTrue (are_joined (nodes (map node (list.old.items ++ last ∷ []))))
        → nodes (map node list.new.items) ≡ joined (append (nodes (map node (list.old.items ++ last ∷ []))) (only (text more)))) }
{
    match last {
        Tree::Text { text } => {
            push_text(list, one_text(text, more.as_str())?)?;
            Ok(())
        }
        Tree::Elem { name, attrs, kids } => {
            list.push(Tree::Elem { name, attrs, kids })?;
            push_text(list, more)?;
            Ok(())
        }
    }
}

/// The text with more after it.
fn one_text(text: Line, more: &str) -> Result<Line, Memory>
    ensures { IfOk result (λ line. line ≡ text ++ more.now) }
{
    let mut bytes = text.into_string();
    bytes.push_str(more)?;
    Ok(Line::from_string(bytes))
}

/// Puts a text to the end as it is.
fn push_text(list: &mut Vec<Tree>, text: Line) -> Result<(), Memory>
    ensures { OnOk result (list.new.items ≡ list.old.items ++ Text text ∷ []) }
{
    list.push(Tree::Text { text })?;
    Ok(())
}
