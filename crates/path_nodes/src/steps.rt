//! The elements to which steps lead.

ghost use Rattle.std.specs.Prelude.{◌≡◌, ◌∷◌, [], true, false, if◌then◌else◌};
ghost use Rattle.std.specs.Prelude.{All, AllPairs, IfOk, filter, flat_map, length, map, sum_by};
ghost use Rattle.ordered_tree.specs.Numbered.{plain};
ghost use Rattle.path_grammar.specs.Form as form;
ghost use Rattle.path_grammar.specs.View as view;
ghost use Rattle.path_meaning.specs.Elements.{elements, is_in};
ghost use Rattle.path_meaning.specs.Meaning as meaning;
ghost use Rattle.path_nodes.specs.Prices as price;
ghost use Rattle.path_nodes.specs.References.{IsElement, element_of};
ghost use Rattle.path_nodes.specs.Says.{satisfied};
ghost use Rattle.path_nodes.specs.steps.Found.{AreBelow, ReferTo, Spends};
ghost use Rattle.path_nodes.specs.steps.Kept as spec;
ghost use Rattle.path_nodes.specs.steps.Leading.{StandFrom, in_step, in_steps};
ghost use Rattle.path_nodes.specs.steps.Regions.{at_or_below};
ghost use Rattle.path_nodes.specs.steps.Within.{AtOrBelow, Precedes};

use crate::children::element_children;
use crate::evaluation::{Evaluation, Ground};
use crate::kept::push_if;
use crate::leading::after_step;
use crate::marks::{Marks, mark_kept};
use crate::names::ReadyTest;
use crate::offering::Offering;
use crate::outermost::outermost;
use crate::walks::{add_marked, with_descendants};
use crate::{HoleTest, Nodes};
use ft_base::{Items, Memory};
use ordered_tree::{DocTree, NodeRef};
use path_grammar::{Predicate, Step};
use std::alloc::Global;

impl<'d, 't, 'k, T: HoleTest, G: Ground> Evaluation<'d, 't, 'k, T, G> {
    /// The elements to which steps lead from elements at or below an element, one step after the other.
    #[cycle(evaluate)]
    pub(crate) fn led(
        &mut self,
        steps: &[Step],
        number: usize,
        base: NodeRef,
        from: Nodes,
    ) -> Result<Nodes, Memory>
        requires from { AreBelow G.root base from }
        requires numbered { StandFrom G.conditions number (in_steps (form.steps (map view.step steps.now))) }
        ensures elements { IfOk result (ReferTo G.root (meaning.led (satisfied G.root G.meaning) (elements (plain G.root))
            (form.steps (map view.step steps.now)) (map (element_of G.root) from))) }
        ensures cost { Spends T.cost self.old.test self.new.test
            (price.steps_price G.root G.meaning (form.steps (map view.step steps.now)) (map (element_of G.root) from)) }
    {
        let mut items = from;
        let mut first = number;
        for step in steps {
            let after = after_step(first, step)?;
            items = self.stepped(step, first, base, items)?;
            first = after;
        }
        Ok(items)
    }

    /// The elements to which steps lead from an element, in document order, each once.
    #[cycle(evaluate)]
    pub(crate) fn led_from(
        &mut self,
        steps: &Items<Step>,
        number: usize,
        item: NodeRef,
    ) -> Result<Nodes, Memory>
        requires item { IsElement G.root item }
        requires numbered { StandFrom G.conditions number (in_steps (form.steps (map view.step steps.now))) }
        ensures elements { IfOk result (ReferTo G.root (meaning.led (satisfied G.root G.meaning) (elements (plain G.root))
            (form.steps (map view.step steps.now)) (element_of G.root item ∷ []))) }
        ensures cost { Spends T.cost self.old.test self.new.test
            (price.steps_price G.root G.meaning (form.steps (map view.step steps.now)) (element_of G.root item ∷ [])) }
    {
        let from = Nodes::from_slice(self.alloc, &[item])?;
        let outer = std::mem::replace(&mut self.inside, true);
        let found = self.led(steps.as_slice(), number, item, from)?;
        self.inside = outer;
        Ok(found)
    }

    /// The elements to which a step leads from elements at or below an element. One pass in document order decides it, unless the
    /// step has a number, which counts the children of each parent, or the children of one context may stand among those of another.
    #[cycle(evaluate)]
    pub(crate) fn stepped(
        &mut self,
        step: &Step,
        number: usize,
        base: NodeRef,
        contexts: Nodes,
    ) -> Result<Nodes, Memory>
        requires contexts { AreBelow G.root base contexts }
        requires numbered { StandFrom G.conditions number (in_step (view.step step.now)) }
        ensures elements { IfOk result (ReferTo G.root (meaning.stepped (satisfied G.root G.meaning) (elements (plain G.root))
            (view.step step.now) (map meaning.item (map (element_of G.root) contexts)))) }
        ensures cost { Spends T.cost self.old.test self.new.test
            (price.step_price G.root G.meaning (view.step step.now) (map meaning.item (map (element_of G.root) contexts))) }
    {
        let outer = outermost(self.alloc, self.tree, &contexts)?;
        if keeps_order(step, &outer, &contexts) {
            return self.chosen_in_order(step, number, &outer);
        }
        let parents = parents_of(self.alloc, self.tree, step.deep, &outer, contexts)?;
        self.chosen(step, number, base, &parents)
    }

    /// The elements that a step without numbers keeps of what elements offer it none of which stands below another.
    #[cycle(evaluate)]
    fn chosen_in_order(
        &mut self,
        step: &Step,
        number: usize,
        outer: &Nodes,
    ) -> Result<Nodes, Memory>
        requires outer { All (IsElement G.root) outer.now }
        requires apart { AllPairs Precedes (map (element_of G.root) outer.now) }
        requires no_number { spec.has_number (view.step step.now) ≡ false }
        requires numbered { StandFrom G.conditions number (in_step (view.step step.now)) }
        ensures elements { IfOk result (ReferTo G.root (filter
            (is_in (map (spec.kept_children G.root G.meaning (view.step step.now)) (spec.parents step.now.deep (map (element_of G.root) outer.now))))
            (elements (plain G.root)))) }
        ensures cost { Spends T.cost self.old.test self.new.test (sum_by
            (price.children_price G.root G.meaning (view.step step.now)) (spec.parents step.now.deep (map (element_of G.root) outer.now))) }
    {
        let name = ReadyTest::of(&step.test);
        let mut offering = Offering::over(self.alloc, self.tree, step.deep, outer)?;
        let mut found = Nodes::new(self.alloc);
        while let Some(here) = offering.next(self.tree, step, &name, &*self.test)? {
            let wanted = self.passes(&step.predicates, number, here)?;
            push_if(wanted, here, &mut found)?;
        }
        Ok(found)
    }

    /// The elements that a step keeps of the children of each parent, in document order.
    #[cycle(evaluate)]
    fn chosen(
        &mut self,
        step: &Step,
        number: usize,
        base: NodeRef,
        parents: &Nodes,
    ) -> Result<Nodes, Memory>
        requires base { IsElement G.root base }
        requires parents { All (IsElement G.root) parents.now }
        requires inside { All (AtOrBelow (element_of G.root base)) (map (element_of G.root) parents.now) }
        requires numbered { StandFrom G.conditions number (in_step (view.step step.now)) }
        ensures elements { IfOk result (ReferTo G.root (filter
            (is_in (map (spec.kept_children G.root G.meaning (view.step step.now)) (map (element_of G.root) parents.now)))
            (elements (plain G.root)))) }
        ensures cost { Spends T.cost self.old.test self.new.test
            (sum_by (price.children_price G.root G.meaning (view.step step.now)) (map (element_of G.root) parents.now)) }
    {
        let mut marks = Marks::new(self.alloc);
        let mut ways = Marks::new(self.alloc);
        for parent in parents.as_slice() {
            let kept = self.kept_children(step, number, *parent)?;
            mark_kept(self.tree, *parent, &kept, &mut marks, &mut ways)?;
        }
        let mut found = Nodes::new(self.alloc);
        add_marked(self.alloc, self.tree, base, &marks, &ways, &mut found)?;
        Ok(found)
    }

    /// The elements that a step keeps of the children of an element.
    #[cycle(evaluate)]
    fn kept_children(
        &mut self,
        step: &Step,
        number: usize,
        parent: NodeRef,
    ) -> Result<Nodes, Memory>
        requires parent { IsElement G.root parent }
        requires numbered { StandFrom G.conditions number (in_step (view.step step.now)) }
        ensures elements { IfOk result (ReferTo G.root (spec.kept_children G.root G.meaning (view.step step.now) (element_of G.root parent))) }
        ensures cost { Spends T.cost self.old.test self.new.test
            (price.children_price G.root G.meaning (view.step step.now) (element_of G.root parent)) }
    {
        let children = element_children(self.alloc, self.tree, parent)?;
        self.kept(step, number, &children)
    }
}

/// Whether what a step keeps of each of the outermost contexts, one after the other, is all that it keeps, in document order.
fn keeps_order(step: &Step, outer: &Nodes, contexts: &Nodes) -> bool
    ensures numbers { result ≡ true → spec.has_number (view.step step.now) ≡ false }
    ensures apart { result ≡ true → step.now.deep ≡ false → length outer.now ≡ length contexts.now }
{
    if has_number(step) {
        return false;
    }
    step.deep || outer.len() == contexts.len()
}

/// Whether a predicate of the step is a number.
fn has_number(step: &Step) -> bool
    ensures { result ≡ spec.has_number (view.step step.now) }
{
    for predicate in step.predicates.as_slice() {
        if is_number(predicate) {
            return true;
        }
    }
    false
}

/// Whether a predicate is a number.
fn is_number(predicate: &Predicate) -> bool
    ensures { result ≡ spec.is_number (view.predicate predicate.now) }
{
    match predicate {
        Predicate::Number(_) => true,
        Predicate::Holds(_) => false,
    }
}

/// The elements to whose children a step leads: the contexts or, where it is deep, the outermost ones and all elements below
/// them.
fn parents_of(
    alloc: Global,
    tree: &DocTree,
    deep: bool,
    outer: &Nodes,
    contexts: Nodes,
) -> Result<Nodes, Memory>
    requires outer { All (IsElement tree.now.root) outer.now }
    requires contexts { All (IsElement tree.now.root) contexts }
    ensures { IfOk result (ReferTo tree.now.root
        (if deep then flat_map at_or_below (map (element_of tree.now.root) outer.now) else map (element_of tree.now.root) contexts)) }
{
    if deep {
        with_descendants(alloc, tree, outer)
    } else {
        Ok(contexts)
    }
}
