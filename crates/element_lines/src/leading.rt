//! What lines of siblings have in common.

ghost use Rattle.std.specs.Prelude.{◌≡◌, ◌++◌, IfOk, OnOk, string_bytes};
ghost use Rattle.std.specs.List.{flat_map};
ghost use Rattle.element_lines.specs.Lines.{element_line, step_text};
ghost use Rattle.element_lines.specs.LocationSteps.{steps_to};
ghost use Rattle.element_lines.specs.steps.Leading.{AreLeading, IsLeading};
ghost use Rattle.element_lines.specs.steps.Numbers.{AreNumbers};
ghost use Rattle.ordered_tree.specs.Numbered.{plain};
ghost use Rattle.path_nodes.specs.References.{IsElement, element_of};

use crate::numbers::{Numbers, number_of};
use crate::step_texts::{push_after, push_document, push_root, push_step};
use ft_base::Memory;
use ordered_tree::{DocTree, NodeRef};
use std::alloc::Global;

/// How many bytes a line mostly has room in.
pub(crate) const LINE_BYTES: usize = 64;

/// The line of a parent: the lines of all its children begin with it, so that it is made once for those that follow each other.
#[derive(Drop)]
pub(crate) struct Leading {
    parent: Option<NodeRef>,
    text: String,
}

impl Leading {
    ghost use Rattle.std.specs.Prelude.{None, Some, true, ℕ, List};
    ghost use Rattle.ordered_tree.specs.Numbered.{Numbered};

    /// Before the first child was named.
    fn new(alloc: Global) -> Result<Leading, Memory>
        ensures { IfOk result (λ leading. (document : List ℕ) (root : Numbered) → IsLeading document root leading) }
    {
        let text = String::with_capacity(alloc, LINE_BYTES)?;
        Ok(Leading { parent: None, text })
    }

    /// The text.
    pub(crate) fn text(&self) -> &str
        ensures { result.now ≡ string_bytes self.now.text }
    {
        self.text.as_str()
    }

    /// Whether it is the line of this parent.
    pub(crate) fn is_of(&self, parent: NodeRef) -> bool
        ensures { result ≡ true → self.now.parent ≡ Some parent }
    {
        match self.parent {
            Some(known) => known == parent,
            None => false,
        }
    }
}

/// The line of the parent whose child was named last, and that of its own parent, so that the line of the next parent below that one is
/// made of it.
#[derive(Drop)]
pub(crate) struct Leads {
    pub(crate) parent: Leading,
    pub(crate) above: Leading,
}

impl Leads {
    ghost use Rattle.std.specs.Prelude.{ℕ, List};
    ghost use Rattle.ordered_tree.specs.Numbered.{Numbered};
    ghost use Rattle.element_lines.specs.steps.Leading.{AreLeading};

    /// Before the first child was named.
    pub(crate) fn new(alloc: Global) -> Result<Leads, Memory>
        ensures { IfOk result (λ leads. (document : List ℕ) (root : Numbered) → AreLeading document root leads) }
    {
        let parent = Leading::new(alloc)?;
        let above = Leading::new(alloc)?;
        Ok(Leads { parent, above })
    }
}

/// Makes the first of them the line of this parent.
pub(crate) fn lead_to(
    alloc: Global,
    document: &str,
    tree: &DocTree,
    parent: NodeRef,
    leads: &mut Leads,
    numbers: &mut Numbers,
) -> Result<(), Memory>
    requires parent { IsElement tree.now.root parent }
    requires leading { AreLeading document.now tree.now.root leads.old }
    requires numbers { AreNumbers tree.now.root numbers.old.items }
    ensures text { OnOk result (string_bytes leads.new.parent.text ≡ element_line document.now (plain tree.now.root) (element_of tree.now.root parent)) }
    ensures leading { OnOk result (AreLeading document.now tree.now.root leads.new) }
    ensures numbers { OnOk result (AreNumbers tree.now.root numbers.new.items) }
{
    if leads.parent.is_of(parent) {
        return Ok(());
    }
    leads.parent.parent = None;
    leads.parent.text.clear();
    push_line(
        alloc,
        document,
        tree,
        parent,
        &mut leads.above,
        numbers,
        &mut leads.parent.text,
    )?;
    leads.parent.parent = Some(parent);
    Ok(())
}

/// Puts the line of an element to the end, by that of its parent.
fn push_line(
    alloc: Global,
    document: &str,
    tree: &DocTree,
    node: NodeRef,
    above: &mut Leading,
    numbers: &mut Numbers,
    text: &mut String,
) -> Result<(), Memory>
    requires node { IsElement tree.now.root node }
    requires leading { IsLeading document.now tree.now.root above.old }
    requires numbers { AreNumbers tree.now.root numbers.old.items }
    ensures text { OnOk result (string_bytes text.new
        ≡ string_bytes text.old ++ element_line document.now (plain tree.now.root) (element_of tree.now.root node)) }
    ensures leading { OnOk result (IsLeading document.now tree.now.root above.new) }
    ensures numbers { OnOk result (AreNumbers tree.now.root numbers.new.items) }
{
    let name = tree.name(node);
    match tree.parent(node) {
        Some(parent) => {
            lead_from_root(alloc, document, tree, parent, above, numbers)?;
            let number = number_of(alloc, tree, parent, node, name, numbers, &mut None)?;
            push_after(above.text(), name, number, text)
        }
        None => push_root(document, name, text),
    }
}

/// Makes it the line of this parent, by all steps to it.
fn lead_from_root(
    alloc: Global,
    document: &str,
    tree: &DocTree,
    parent: NodeRef,
    leading: &mut Leading,
    numbers: &mut Numbers,
) -> Result<(), Memory>
    requires parent { IsElement tree.now.root parent }
    requires leading { IsLeading document.now tree.now.root leading.old }
    requires numbers { AreNumbers tree.now.root numbers.old.items }
    ensures text { OnOk result (string_bytes leading.new.text ≡ element_line document.now (plain tree.now.root) (element_of tree.now.root parent)) }
    ensures leading { OnOk result (IsLeading document.now tree.now.root leading.new) }
    ensures numbers { OnOk result (AreNumbers tree.now.root numbers.new.items) }
{
    if leading.is_of(parent) {
        return Ok(());
    }
    leading.parent = None;
    leading.text.clear();
    push_document(document, &mut leading.text)?;
    push_steps(alloc, tree, parent, numbers, &mut leading.text)?;
    leading.parent = Some(parent);
    Ok(())
}

/// Puts the steps from the document to an element to the end.
fn push_steps(
    alloc: Global,
    tree: &DocTree,
    node: NodeRef,
    numbers: &mut Numbers,
    text: &mut String,
) -> Result<(), Memory>
    requires node { IsElement tree.now.root node }
    requires numbers { AreNumbers tree.now.root numbers.old.items }
    ensures text { OnOk result (string_bytes text.new
        ≡ string_bytes text.old ++ flat_map step_text (steps_to (plain tree.now.root) (element_of tree.now.root node).place)) }
    ensures numbers { OnOk result (AreNumbers tree.now.root numbers.new.items) }
{
    match tree.parent(node) {
        Some(parent) => {
            push_steps(alloc, tree, parent, numbers, text)?;
            let name = tree.name(node);
            let number = number_of(alloc, tree, parent, node, name, numbers, &mut None)?;
            push_step(name, number, text)
        }
        None => push_step(tree.name(node), 1, text),
    }
}
