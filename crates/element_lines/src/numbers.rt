ghost use Rattle.std.specs.Prelude.{◌≡◌, ◌<◌, ◌≤◌, ◌^◌, ℕ, nat_eq, cond, length, Some, IfOk, OnOk};
ghost use Rattle.element_lines.specs.steps.Children.{IsCountingOrNone};
ghost use Rattle.element_lines.specs.steps.Numbers as spec;
ghost use Rattle.element_lines.specs.steps.Numbers.{AreNumbers, HasChildren, IsChild};
ghost use Rattle.path_nodes.specs.References.{IsElement};

use crate::counting::Counting;
use crate::counts::{Counts, count_name};
use crate::siblings::{before_children, count_to};
use ft_base::Memory;
use ordered_tree::{DocTree, NodeRef};
use std::alloc::Global;

/// The numbers of elements among their siblings of the same name, by their references; 0 where none is kept.
pub(crate) type Numbers = Vec<u32>;

/// The number of an element that has that name and is a child of the other one. If it isn't there yet, it is counted, where it is one of the
/// first children; else those of all children are found and kept.
pub(crate) fn number_of<'t>(
    alloc: Global,
    tree: &'t DocTree,
    parent: NodeRef,
    node: NodeRef,
    name: &'t str,
    numbers: &mut Numbers,
    counting: &mut Option<Counting<'t>>,
) -> Result<u32, Memory>
    requires parent { IsElement tree.now.root parent }
    requires node { IsChild tree.now.root parent node }
    requires numbers { AreNumbers tree.now.root numbers.old.items }
    requires counting { IsCountingOrNone tree.now.root counting.old }
    ensures number { IfOk result (λ number. number ≡ spec.number_of tree.now.root node) }
    ensures numbers { OnOk result (AreNumbers tree.now.root numbers.new.items) }
    ensures counting { IsCountingOrNone tree.now.root counting.new }
{
    if let Some(number) = kept(numbers, node) {
        return Ok(number);
    }
    let mut first = before_children(tree, parent, name);
    if let Some(number) = count_to(tree, &mut first, node) {
        *counting = Some(first);
        return Ok(number);
    }
    number_children(alloc, tree, parent, numbers)?;
    match kept(numbers, node) {
        Some(number) => Ok(number),
        None => unreachable!(),
    }
}

/// Finds the numbers of all elements that are children of an element.
fn number_children(
    alloc: Global,
    tree: &DocTree,
    parent: NodeRef,
    numbers: &mut Numbers,
) -> Result<(), Memory>
    requires parent { IsElement tree.now.root parent }
    requires numbers { AreNumbers tree.now.root numbers.old.items }
    ensures numbers { OnOk result (AreNumbers tree.now.root numbers.new.items) }
    ensures there { OnOk result (HasChildren tree.now.root numbers.new.items parent) }
{
    let _nodes = tree.node_count();
    let mut counts = Counts::new(alloc);
    let mut link = tree.first_child(parent);
    while let Some(child) = link {
        if tree.is_element(child) {
            let number = count_name(&mut counts, tree.name(child))?;
            keep(numbers, child, number)?;
        }
        link = tree.next(child);
    }
    Ok(())
}

/// The number that is kept for a reference.
fn kept(numbers: &Numbers, node: NodeRef) -> Option<u32>
    ensures { result ≡ spec.kept numbers.now.items node.0 }
{
    let at = node.0 as usize;
    if at >= numbers.len() {
        return None;
    }
    match numbers[at] {
        0 => None,
        number => Some(number),
    }
}

/// Keeps a number for a reference.
fn keep(numbers: &mut Numbers, node: NodeRef, number: u32) -> Result<(), Memory>
    requires { 0 < number }
    ensures { OnOk result ((at : ℕ) → spec.kept numbers.new.items at ≡ cond (nat_eq node.0 at) (Some number) (spec.kept numbers.old.items at)) }
{
    let at = node.0 as usize;
    reach(numbers, at)?;
    numbers[at] = number;
    Ok(())
}

/// Makes room for a number at that place, where nothing is kept yet.
fn reach(numbers: &mut Numbers, at: usize) -> Result<(), Memory>
    requires { at < 2 ^ 32 }
    ensures room { OnOk result (at < length numbers.new.items) }
    ensures same { OnOk result ((other : ℕ) → spec.kept numbers.new.items other ≡ spec.kept numbers.old.items other) }
{
    if at >= numbers.len() {
        numbers.resize(at + 1, 0)?;
    }
    Ok(())
}
