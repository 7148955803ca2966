//! The elements that the predicates of a step keep.

ghost use Rattle.std.specs.Prelude.{◌≡◌, ◌∷◌, [], All, IfOk, false, filter, map, sum_by};
ghost use Rattle.ordered_tree.specs.Numbered.{plain};
ghost use Rattle.path_grammar.specs.Form as form;
ghost use Rattle.path_grammar.specs.View as view;
ghost use Rattle.path_meaning.specs.Elements.{elements};
ghost use Rattle.path_meaning.specs.Meaning as meaning;
ghost use Rattle.path_nodes.specs.Prices as price;
ghost use Rattle.path_nodes.specs.References.{IsElement, element_of};
ghost use Rattle.path_nodes.specs.Says.{satisfied};
ghost use Rattle.path_nodes.specs.steps.Found.{ReferTo, Spends};
ghost use Rattle.path_nodes.specs.steps.Kept as spec;
ghost use Rattle.path_nodes.specs.steps.Leading.{StandFrom, in_condition, in_predicate, in_predicates, in_step};

use crate::evaluation::{Evaluation, Ground};
use crate::kept::push_if;
use crate::leading::after_predicate;
use crate::names::{ReadyTest, named};
use crate::numbers::numbered;
use crate::{HoleTest, Nodes};
use ft_base::Memory;
use ordered_tree::NodeRef;
use path_grammar::{Condition, Predicate, Predicates, Step};

impl<'d, 't, 'k, T: HoleTest, G: Ground> Evaluation<'d, 't, 'k, T, G> {
    /// Whether an element passes the predicates, none of which is a number. Those after the first one that it doesn't pass aren't asked.
    #[cycle(evaluate)]
    pub(crate) fn passes(
        &mut self,
        predicates: &Predicates,
        number: usize,
        item: NodeRef,
    ) -> Result<bool, Memory>
        requires no_number { spec.some_number (form.predicates (map view.predicate predicates.now)) ≡ false }
        requires item { IsElement G.root item }
        requires numbered { StandFrom G.conditions number (in_predicates (form.predicates (map view.predicate predicates.now))) }
        ensures truth { IfOk result (λ truth. truth ≡ spec.passes (satisfied G.root G.meaning) (elements (plain G.root))
            (form.predicates (map view.predicate predicates.now)) (element_of G.root item)) }
        ensures cost { Spends T.cost self.old.test self.new.test (price.predicates_price G.root G.meaning
            (form.predicates (map view.predicate predicates.now)) (element_of G.root item ∷ [])) }
    {
        let mut first = number;
        for predicate in predicates.as_slice() {
            let after = after_predicate(first, predicate)?;
            if !self.passes_by(predicate, first, item)? {
                return Ok(false);
            }
            first = after;
        }
        Ok(true)
    }

    /// Whether an element passes a predicate; numbers aren't asked of one element by itself.
    #[cycle(evaluate)]
    fn passes_by(
        &mut self,
        predicate: &Predicate,
        number: usize,
        item: NodeRef,
    ) -> Result<bool, Memory>
        requires item { IsElement G.root item }
        requires numbered { StandFrom G.conditions number (in_predicate (view.predicate predicate.now)) }
        ensures truth { IfOk result (λ truth. truth ≡ spec.passes_by (satisfied G.root G.meaning) (elements (plain G.root))
            (view.predicate predicate.now) (element_of G.root item)) }
        ensures cost { Spends T.cost self.old.test self.new.test
            (price.predicate_price G.root G.meaning (view.predicate predicate.now) (element_of G.root item ∷ [])) }
    {
        match predicate {
            Predicate::Number(_) => Ok(true),
            Predicate::Holds(condition) => self.is_true(condition, number, item),
        }
    }

    /// The elements of a list that pass the step's test of names and then its predicates.
    #[cycle(evaluate)]
    pub(crate) fn kept(
        &mut self,
        step: &Step,
        number: usize,
        items: &Nodes,
    ) -> Result<Nodes, Memory>
        requires items { All (IsElement G.root) items.now }
        requires numbered { StandFrom G.conditions number (in_step (view.step step.now)) }
        ensures elements { IfOk result (ReferTo G.root
            (spec.kept G.root G.meaning (view.step step.now) (map (element_of G.root) items.now))) }
        ensures cost { Spends T.cost self.old.test self.new.test
            (price.list_price G.root G.meaning (view.step step.now) (map (element_of G.root) items.now)) }
    {
        let name = ReadyTest::of(&step.test);
        let named = named(self.alloc, self.tree, &name, items)?;
        self.passed(&step.predicates, number, named)
    }

    /// The elements of a list that pass predicates, each of which sees what those before it have left.
    #[cycle(evaluate)]
    fn passed(
        &mut self,
        predicates: &Predicates,
        number: usize,
        items: Nodes,
    ) -> Result<Nodes, Memory>
        requires items { All (IsElement G.root) items }
        requires numbered { StandFrom G.conditions number (in_predicates (form.predicates (map view.predicate predicates.now))) }
        ensures elements { IfOk result (ReferTo G.root (meaning.filtered (satisfied G.root G.meaning) (elements (plain G.root))
            (form.predicates (map view.predicate predicates.now)) (map (element_of G.root) items))) }
        ensures cost { Spends T.cost self.old.test self.new.test (price.predicates_price G.root G.meaning
            (form.predicates (map view.predicate predicates.now)) (map (element_of G.root) items)) }
    {
        let mut kept = items;
        let mut first = number;
        for predicate in predicates.as_slice() {
            let after = after_predicate(first, predicate)?;
            kept = self.filtered(predicate, first, kept)?;
            first = after;
        }
        Ok(kept)
    }

    /// The elements of a list that pass a predicate.
    #[cycle(evaluate)]
    fn filtered(
        &mut self,
        predicate: &Predicate,
        number: usize,
        items: Nodes,
    ) -> Result<Nodes, Memory>
        requires items { All (IsElement G.root) items }
        requires numbered { StandFrom G.conditions number (in_predicate (view.predicate predicate.now)) }
        ensures elements { IfOk result (ReferTo G.root (meaning.filtered_by (satisfied G.root G.meaning) (elements (plain G.root))
            (view.predicate predicate.now) (map (element_of G.root) items))) }
        ensures cost { Spends T.cost self.old.test self.new.test
            (price.predicate_price G.root G.meaning (view.predicate predicate.now) (map (element_of G.root) items)) }
    {
        match predicate {
            Predicate::Number(place) => numbered(self.alloc, self.tree, *place, &items),
            Predicate::Holds(condition) => self.satisfying(condition, number, items),
        }
    }

    /// The elements of a list of which a condition is true.
    #[cycle(evaluate)]
    fn satisfying(
        &mut self,
        condition: &Condition,
        number: usize,
        items: Nodes,
    ) -> Result<Nodes, Memory>
        requires items { All (IsElement G.root) items }
        requires numbered { StandFrom G.conditions number (in_condition (view.condition condition.now)) }
        ensures elements { IfOk result (ReferTo G.root (filter
            (meaning.is_true (satisfied G.root G.meaning) (elements (plain G.root)) (view.condition condition.now))
            (map (element_of G.root) items))) }
        ensures cost { Spends T.cost self.old.test self.new.test
            (sum_by (price.condition_price G.root G.meaning (view.condition condition.now)) (map (element_of G.root) items)) }
    {
        let mut kept = Nodes::new(self.alloc);
        for item in items.as_slice() {
            let wanted = self.is_true(condition, number, *item)?;
            push_if(wanted, *item, &mut kept)?;
        }
        Ok(kept)
    }
}
