ghost use Rattle.std.specs.Prelude.{◌≡◌, ◌<◌, ◌≤◌, ◌+◌, ◌∷◌, [], ℕ, All, Bool, IfOk, List, false, length, map, true};
ghost use Rattle.ordered_tree.specs.Numbered.{is_element, plain};
ghost use Rattle.path_meaning.specs.Elements.{Element, elements, placed};
ghost use Rattle.path_grammar.specs.Form as form;
ghost use Rattle.path_meaning.specs.Meaning as meaning;
ghost use Rattle.path_grammar.specs.View as view;
ghost use Rattle.path_grammar.specs.Without.{has_without};
ghost use Rattle.path_nodes.specs.Asked.{OfEach, MayAsk};
ghost use Rattle.path_nodes.specs.steps.Found.{ReferTo, Spends};
ghost use Rattle.path_nodes.specs.steps.Leading.{StandFrom, in_path, in_step};
ghost use Rattle.path_nodes.specs.Prices.{price_of, step_price, total_price};
ghost use Rattle.path_nodes.specs.References.{IsElement, element_of};
ghost use Rattle.path_nodes.specs.Says.{Agrees, Costs, satisfied};
ghost use Rattle.path_meaning.specs.Tests.{selected_tests};

use crate::evaluation::{Evaluation, Ground, Truths};
use crate::kept::append;
use crate::leading::after_step;
use crate::ruling_out::lead_nowhere;
use crate::without_holes::WithoutHoles;
use crate::{HoleTest, Nodes, TextTest};
use ft_base::Memory;
use ordered_tree::{DocTree, NodeRef};
use path_grammar::{Step, Steps};
use std::alloc::Global;
use std::marker::{Brand, PhantomData};

/// The elements of a document to which steps lead from it, in document order, each once. `contains text` is answered by the
/// test, which is asked only as long as the truth isn't known. Elements are gone past, with all below them, where it rules out what the
/// predicates of a step ask for. None of the steps asks for text without content. Answers `Memory` for want of memory alone.
///
/// The meaning of steps is that of XQuery 3.0, section 3.3.
pub fn nodes<T: TextTest>(
    alloc: Global,
    steps: &Steps,
    tree: &DocTree,
    test: &mut T,
) -> Result<Vec<NodeRef>, Memory>
    requires root { is_element tree.now.root ≡ true }
    requires plain { has_without (form.steps (map view.step steps.now)) ≡ false }
    requires asked { OfEach (MayAsk tree.now.root (T.meaning test.old)) (form.steps (map view.step steps.now)) }
    ensures elements { IfOk result (λ found. map (element_of tree.now.root) found.items
        ≡ meaning.selected (satisfied tree.now.root (T.meaning test.old)) (form.steps (map view.step steps.now)) (plain tree.now.root)) }
    ensures agrees { (satisfies : ℕ → List Element → Element → Bool) → Agrees tree.now.root (T.meaning test.old) satisfies
        → IfOk result (λ found. map (element_of tree.now.root) found.items
        ≡ meaning.selected satisfies (form.steps (map view.step steps.now)) (plain tree.now.root)) }
    ensures there { IfOk result (λ found. All (IsElement tree.now.root) found.items) }
    ensures meaning { T.meaning test.new ≡ T.meaning test.old }
    ensures cost { T.cost test.new
        ≤ T.cost test.old
        + price_of tree.now.root (T.meaning test.old)
        (selected_tests (satisfied tree.now.root (T.meaning test.old)) (form.steps (map view.step steps.now)) (plain tree.now.root)) }
    ensures costs { (satisfies : ℕ → List Element → Element → Bool) (price : ℕ → Element → ℕ) → Agrees tree.now.root (T.meaning test.old) satisfies
        → Costs tree.now.root (T.meaning test.old) price
        → T.cost test.new ≤ T.cost test.old + total_price price (selected_tests satisfies (form.steps (map view.step steps.now)) (plain tree.now.root)) }
{
    let mut alone = WithoutHoles { test };
    nodes_without(alloc, steps, tree, &mut alone)
}

/// The same of steps that may ask for text without content: the test is given what is ignored. That is looked for once for an element of
/// which a condition is asked, and only where there are elements to be tested.
pub fn nodes_without<T: HoleTest>(
    alloc: Global,
    steps: &Steps,
    tree: &DocTree,
    test: &mut T,
) -> Result<Vec<NodeRef>, Memory>
    requires root { is_element tree.now.root ≡ true }
    requires given { has_without (form.steps (map view.step steps.now)) ≡ true → T.takes_holes ≡ true }
    requires asked { OfEach (MayAsk tree.now.root (T.meaning test.old)) (form.steps (map view.step steps.now)) }
    ensures elements { IfOk result (λ found. map (element_of tree.now.root) found.items
        ≡ meaning.selected (satisfied tree.now.root (T.meaning test.old)) (form.steps (map view.step steps.now)) (plain tree.now.root)) }
    ensures agrees { (satisfies : ℕ → List Element → Element → Bool) → Agrees tree.now.root (T.meaning test.old) satisfies
        → IfOk result (λ found. map (element_of tree.now.root) found.items
        ≡ meaning.selected satisfies (form.steps (map view.step steps.now)) (plain tree.now.root)) }
    ensures there { IfOk result (λ found. All (IsElement tree.now.root) found.items) }
    ensures meaning { T.meaning test.new ≡ T.meaning test.old }
    ensures cost { T.cost test.new
        ≤ T.cost test.old
        + price_of tree.now.root (T.meaning test.old)
        (selected_tests (satisfied tree.now.root (T.meaning test.old)) (form.steps (map view.step steps.now)) (plain tree.now.root)) }
    ensures costs { (satisfies : ℕ → List Element → Element → Bool) (price : ℕ → Element → ℕ) → Agrees tree.now.root (T.meaning test.old) satisfies
        → Costs tree.now.root (T.meaning test.old) price
        → T.cost test.new ≤ T.cost test.old + total_price price (selected_tests satisfies (form.steps (map view.step steps.now)) (plain tree.now.root)) }
{
    // No two nodes have one number, as the clauses of `root` say.
    let _root = tree.root();
    if steps.is_empty() {
        return Ok(Vec::new(alloc));
    }
    if lead_nowhere(tree, steps, test) {
        return Ok(Vec::new(alloc));
    }
    let found = selected_with::<T, Brand>(alloc, steps, tree, test)?;
    Ok(found.into_vec())
}

/// The elements to which steps lead from a document, where proofs know what they are evaluated over.
fn selected_with<T: HoleTest, G: Ground>(
    alloc: Global,
    steps: &Steps,
    tree: &DocTree,
    test: &mut T,
) -> Result<Nodes, Memory>
    requires root { tree.now.root ≡ G.root }
    requires element { is_element G.root ≡ true }
    requires meaning { T.meaning test.old ≡ G.meaning }
    requires conditions { in_path steps.now ≡ G.conditions }
    requires given { has_without (form.steps (map view.step steps.now)) ≡ true → T.takes_holes ≡ true }
    requires asked { OfEach (MayAsk G.root G.meaning) (form.steps (map view.step steps.now)) }
    requires some { 0 < length steps.now }
    ensures elements { IfOk result (ReferTo G.root
        (meaning.selected (satisfied G.root G.meaning) (form.steps (map view.step steps.now)) (plain G.root))) }
    ensures meaning { T.meaning test.new ≡ G.meaning }
    ensures cost { T.cost test.new
        ≤ T.cost test.old
        + price_of G.root G.meaning (selected_tests (satisfied G.root G.meaning) (form.steps (map view.step steps.now)) (plain G.root)) }
{
    let mut truths = Truths::new(alloc);
    let mut evaluation: Evaluation<'_, '_, '_, T, G> = Evaluation {
        alloc,
        tree,
        test,
        truths: &mut truths,
        inside: false,
        ground: PhantomData,
    };
    evaluation.selected(steps)
}

impl<'d, 't, 'k, T: HoleTest, G: Ground> Evaluation<'d, 't, 'k, T, G> {
    /// The elements to which the path's steps lead from the document.
    fn selected(&mut self, steps: &Steps) -> Result<Nodes, Memory>
        requires element { is_element G.root ≡ true }
        requires conditions { in_path steps.now ≡ G.conditions }
        requires some { 0 < length steps.now }
        ensures elements { IfOk result (ReferTo G.root
            (meaning.selected (satisfied G.root G.meaning) (form.steps (map view.step steps.now)) (plain G.root))) }
        ensures cost { Spends T.cost self.old.test self.new.test (price_of G.root G.meaning
            (selected_tests (satisfied G.root G.meaning) (form.steps (map view.step steps.now)) (plain G.root))) }
    {
        let root = self.tree.root();
        let step = steps.get(0);
        let number = after_step(0, step)?;
        let first = self.from_document(step, root)?;
        self.led(&steps.as_slice()[1..], number, root, first)
    }

    /// The elements to which a step leads from the document, whose only child is the root.
    fn from_document(&mut self, step: &Step, root: NodeRef) -> Result<Nodes, Memory>
        requires root { IsElement G.root root }
        requires first { element_of G.root root ≡ placed [] (plain G.root) }
        requires numbered { StandFrom G.conditions 0 (in_step (view.step step.now)) }
        ensures elements { IfOk result (ReferTo G.root (meaning.stepped (satisfied G.root G.meaning) (elements (plain G.root))
            (view.step step.now) (meaning.document (plain G.root) ∷ []))) }
        ensures cost { Spends T.cost self.old.test self.new.test
            (step_price G.root G.meaning (view.step step.now) (meaning.document (plain G.root) ∷ [])) }
    {
        let only = Nodes::from_slice(self.alloc, &[root])?;
        let mut found = self.kept(step, 0, &only)?;
        if !step.deep {
            return Ok(found);
        }
        let below = self.stepped(step, 0, root, only)?;
        append(&mut found, &below)?;
        Ok(found)
    }
}
