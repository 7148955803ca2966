//! Numbers of elements among their siblings of one name, counted on from one to the next.

ghost use Rattle.std.specs.Prelude.{◌≡◌, ◌≤◌, cond, IfSome, None, Some};
ghost use Rattle.element_lines.specs.steps.Children.{IsCounting};
ghost use Rattle.element_lines.specs.steps.Numbers as spec;
ghost use Rattle.element_lines.specs.steps.Numbers.{IsChild};
ghost use Rattle.element_lines.specs.LocationSteps.{name_of};
ghost use Rattle.path_nodes.specs.References.{IsElement, element_of};

use crate::counting::Counting;
use ordered_tree::{DocTree, ElementName, NodeRef};

/// How many children are looked at for the number of the next element.
const FEW: u32 = 32;

/// No child of the element is counted yet.
pub(crate) fn before_children<'t>(tree: &DocTree, parent: NodeRef, name: &'t str) -> Counting<'t>
    requires parent { IsElement tree.now.root parent }
    ensures counting { IsCounting tree.now.root result }
    ensures parent { result.parent ≡ parent }
    ensures name { result.name.now ≡ name.now }
{
    let link = tree.first_child(parent);
    Counting {
        parent,
        name,
        ready: ElementName::new(name),
        link,
        number: 1,
    }
}

/// The number of an element, where it is one of the next children and has the name. What is before it is counted then.
pub(crate) fn count_to(tree: &DocTree, counting: &mut Counting<'_>, node: NodeRef) -> Option<u32>
    requires node { IsElement tree.now.root node }
    requires counting { IsCounting tree.now.root counting.old }
    ensures number { IfSome result (λ number. number ≡ spec.number_of tree.now.root node) }
    ensures child { IfSome result (λ number. IsChild tree.now.root counting.old.parent node) }
    ensures named { IfSome result (λ number. counting.old.name.now ≡ name_of (element_of tree.now.root node).node) }
    ensures counting { IsCounting tree.now.root counting.new }
    ensures parent { counting.new.parent ≡ counting.old.parent }
    ensures name { counting.new.name ≡ counting.old.name }
{
    let _nodes = tree.node_count();
    for _ in 0..FEW {
        let Some(child) = counting.link else {
            return None;
        };
        let named = tree.is_named(child, &counting.ready);
        if child.0 == node.0 {
            let number = number_if(named, counting.number);
            return number;
        }
        counting.number += count_if(named);
        counting.link = tree.next(child);
    }
    None
}

/// The number, where the element has the name.
fn number_if(named: bool, number: u32) -> Option<u32>
    ensures { result ≡ cond named (Some number) None }
{
    if named { Some(number) } else { None }
}

/// One, where it counts.
fn count_if(counts: bool) -> u32
    ensures one { result ≡ cond counts 1 0 }
    ensures few { result ≤ 1 }
{
    if counts { 1 } else { 0 }
}
