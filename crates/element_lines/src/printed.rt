ghost use Rattle.std.specs.Prelude.{◌≡◌, ◌++◌, ℕ, List, All, IfOk, OnErr, OnOk, map};
ghost use Rattle.element_lines.specs.Lines.{printed_line};
ghost use Rattle.path_nodes.specs.References.{IsElement, element_of};

use doc_profile::print_tree;
use ft_base::{Line, Memory};
use ordered_tree::{DocTree, NodeRef};
use std::alloc::Global;
use text_list::TextList;

/// Puts the printed forms of elements to the end, a line each. Where memory runs out, the lines stay as they were.
pub fn push_printed(
    alloc: Global,
    tree: &DocTree,
    nodes: &[NodeRef],
    lines: &mut TextList,
) -> Result<(), Memory>
    requires { All (IsElement tree.now.root) nodes.now }
    ensures ok { OnOk result (lines.new ≡ lines.old ++ map (λ r. printed_line (element_of tree.now.root r).node) nodes.now) }
    ensures err { OnErr result (lines.new ≡ lines.old) }
{
    let count = lines.len();
    match put_printed(alloc, tree, nodes, lines) {
        Ok(()) => Ok(()),
        Err(memory) => {
            lines.truncate(count);
            Err(memory)
        }
    }
}

/// Puts the printed forms of elements to the end. Where memory runs out, some lines may stand after those that were there.
fn put_printed(
    alloc: Global,
    tree: &DocTree,
    nodes: &[NodeRef],
    lines: &mut TextList,
) -> Result<(), Memory>
    requires { All (IsElement tree.now.root) nodes.now }
    ensures ok { OnOk result (lines.new ≡ lines.old ++ map (λ r. printed_line (element_of tree.now.root r).node) nodes.now) }
    ensures err { OnErr result ((more : List (List ℕ)) × (lines.new ≡ lines.old ++ more)) }
{
    for node in nodes {
        let line = printed_form(alloc, tree, *node)?;
        lines.push(line.as_str())?;
    }
    Ok(())
}

/// The printed form of an element.
fn printed_form(alloc: Global, tree: &DocTree, node: NodeRef) -> Result<Line, Memory>
    requires { IsElement tree.now.root node }
    ensures { IfOk result (λ line. line ≡ printed_line (element_of tree.now.root node).node) }
{
    let element = tree.to_tree(node)?;
    let line = print_tree(alloc, &element)?;
    Ok(line)
}
