ghost use Rattle.std.specs.Prelude.{◌≡◌, ◌++◌, ℕ, List, All, OnErr, OnOk, map, string_bytes};
ghost use Rattle.element_lines.specs.Lines.{element_line};
ghost use Rattle.element_lines.specs.steps.Known.{IsKnown};
ghost use Rattle.ordered_tree.specs.Numbered.{plain};
ghost use Rattle.path_nodes.specs.References.{IsElement, element_of};

use crate::counting::Counting;
use crate::leading::{LINE_BYTES, Leads, lead_to};
use crate::numbers::{Numbers, number_of};
use crate::siblings::count_to;
use crate::step_texts::{push_after, push_root};
use ft_base::Memory;
use ordered_tree::{DocTree, NodeRef};
use std::alloc::Global;
use text_list::TextList;

/// Puts the lines that name elements of a document to the end, in the order of the elements. Where memory runs out, the lines
/// stay as they were.
pub fn push_names(
    alloc: Global,
    document: &str,
    tree: &DocTree,
    nodes: &[NodeRef],
    lines: &mut TextList,
) -> Result<(), Memory>
    requires { All (IsElement tree.now.root) nodes.now }
    ensures ok { OnOk result (lines.new ≡ lines.old ++ map (λ r. element_line document.now (plain tree.now.root) (element_of tree.now.root r)) nodes.now) }
    ensures err { OnErr result (lines.new ≡ lines.old) }
{
    let count = lines.len();
    match put_names(alloc, document, tree, nodes, lines) {
        Ok(()) => Ok(()),
        Err(memory) => {
            lines.truncate(count);
            Err(memory)
        }
    }
}

/// Puts the lines that name elements of a document to the end, in the order of the elements. Where memory runs out, some lines may
/// stand after those that were there.
fn put_names(
    alloc: Global,
    document: &str,
    tree: &DocTree,
    nodes: &[NodeRef],
    lines: &mut TextList,
) -> Result<(), Memory>
    requires { All (IsElement tree.now.root) nodes.now }
    ensures ok { OnOk result (lines.new ≡ lines.old ++ map (λ r. element_line document.now (plain tree.now.root) (element_of tree.now.root r)) nodes.now) }
    ensures err { OnErr result ((more : List (List ℕ)) × (lines.new ≡ lines.old ++ more)) }
{
    let mut known = Known {
        leads: Leads::new(alloc)?,
        numbers: Numbers::new(alloc),
        counting: None,
    };
    let mut line = String::with_capacity(alloc, LINE_BYTES)?;
    for node in nodes {
        name_line(alloc, document, tree, *node, &mut known, &mut line)?;
        lines.push(line.as_str())?;
    }
    Ok(())
}

/// What is known of elements from those that were named so far.
#[derive(Drop)]
struct Known<'t> {
    leads: Leads,
    numbers: Numbers,
    /// How far the children are counted of the parent whose child was named last
    counting: Option<Counting<'t>>,
}

/// Makes the text the line that names an element.
fn name_line<'t>(
    alloc: Global,
    document: &str,
    tree: &'t DocTree,
    node: NodeRef,
    known: &mut Known<'t>,
    line: &mut String,
) -> Result<(), Memory>
    requires node { IsElement tree.now.root node }
    requires known { IsKnown document.now tree.now.root known.old }
    ensures line { OnOk result (string_bytes line.new ≡ element_line document.now (plain tree.now.root) (element_of tree.now.root node)) }
    ensures known { OnOk result (IsKnown document.now tree.now.root known.new) }
{
    line.clear();
    if let Some(counting) = &mut known.counting {
        if known.leads.parent.is_of(counting.parent) {
            if let Some(number) = count_to(tree, counting, node) {
                return push_after(known.leads.parent.text(), counting.name, number, line);
            }
        }
    }
    name_anew(alloc, document, tree, node, known, line)
}

/// Puts the line that names an element to the end, by its parent.
fn name_anew<'t>(
    alloc: Global,
    document: &str,
    tree: &'t DocTree,
    node: NodeRef,
    known: &mut Known<'t>,
    line: &mut String,
) -> Result<(), Memory>
    requires node { IsElement tree.now.root node }
    requires known { IsKnown document.now tree.now.root known.old }
    ensures line { OnOk result (string_bytes line.new
        ≡ string_bytes line.old ++ element_line document.now (plain tree.now.root) (element_of tree.now.root node)) }
    ensures known { OnOk result (IsKnown document.now tree.now.root known.new) }
{
    let name = tree.name(node);
    match tree.parent(node) {
        Some(parent) => {
            let Known {
                leads,
                numbers,
                counting,
            } = known;
            lead_to(alloc, document, tree, parent, leads, numbers)?;
            let number = number_of(alloc, tree, parent, node, name, numbers, counting)?;
            push_after(leads.parent.text(), name, number, line)
        }
        None => push_root(document, name, line),
    }
}
