//! What conditions say of an element.

ghost use Rattle.std.specs.Prelude.{◌≡◌, ◌∷◌, [], IfOk, map, true};
ghost use Rattle.ordered_tree.specs.Numbered.{plain};
ghost use Rattle.path_grammar.specs.Form as form;
ghost use Rattle.path_grammar.specs.View as view;
ghost use Rattle.path_meaning.specs.Elements.{elements};
ghost use Rattle.path_meaning.specs.Meaning as meaning;
ghost use Rattle.path_nodes.specs.Prices as price;
ghost use Rattle.path_nodes.specs.References.{IsElement, element_of};
ghost use Rattle.path_nodes.specs.Says.{satisfied};
ghost use Rattle.path_nodes.specs.steps.Found.{Spends};
ghost use Rattle.path_nodes.specs.steps.Kept as spec;
ghost use Rattle.path_nodes.specs.steps.Leading.{StandFrom, in_condition, in_conditions};

use crate::HoleTest;
use crate::attributes::has_attribute;
use crate::evaluation::{Evaluation, Ground};
use crate::leading::{after_condition, after_paths, next};
use ft_base::{Items, Memory};
use ordered_tree::NodeRef;
use path_grammar::{Condition, RelativePaths, Step};

impl<'d, 't, 'k, T: HoleTest, G: Ground> Evaluation<'d, 't, 'k, T, G> {
    /// Whether a condition is true of an element.
    #[cycle(evaluate)]
    pub(crate) fn is_true(
        &mut self,
        condition: &Condition,
        number: usize,
        item: NodeRef,
    ) -> Result<bool, Memory>
        requires item { IsElement G.root item }
        requires numbered { StandFrom G.conditions number (in_condition (view.condition condition.now)) }
        ensures truth { IfOk result (λ truth. truth ≡ meaning.is_true (satisfied G.root G.meaning) (elements (plain G.root))
            (view.condition condition.now) (element_of G.root item)) }
        ensures cost { Spends T.cost self.old.test self.new.test
            (price.condition_price G.root G.meaning (view.condition condition.now) (element_of G.root item)) }
    {
        match condition {
            Condition::Or(parts) => self.joined(parts, number, true, item),
            Condition::And(parts) => self.joined(parts, number, false, item),
            Condition::Not(operand) => Ok(!self.is_true(operand, number, item)?),
            Condition::Attribute { name, value } => {
                Ok(has_attribute(self.tree, item, name, value))
            }
            Condition::Exists(steps) => self.exists(steps, number, item),
            Condition::Contains {
                steps,
                selection,
                ignored,
            } => {
                if is_of_itself(steps, ignored) {
                    return self.itself_contains(*selection, item);
                }
                if let Some(truth) = self.truth(number, item) {
                    return Ok(truth);
                }
                let first = next(number)?;
                let nodes = self.led_from(steps, after_paths(first, ignored)?, item)?;
                let truth = self.some_satisfies(*selection, ignored, first, item, &nodes)?;
                self.keep(number, item, truth)?;
                Ok(truth)
            }
        }
    }

    /// The truth of conditions that are joined: by `or` where a true one decides it, by `and` where a false one does. Those after
    /// the first one that decides aren't looked at.
    #[cycle(evaluate)]
    fn joined(
        &mut self,
        conditions: &Items<Condition>,
        number: usize,
        deciding: bool,
        item: NodeRef,
    ) -> Result<bool, Memory>
        requires item { IsElement G.root item }
        requires numbered { StandFrom G.conditions number (in_conditions (form.conditions (map view.condition conditions.now))) }
        ensures truth { IfOk result (λ truth. truth ≡ spec.joined deciding (satisfied G.root G.meaning) (elements (plain G.root))
            (form.conditions (map view.condition conditions.now)) (element_of G.root item)) }
        ensures cost { Spends T.cost self.old.test self.new.test
            (price.conditions_price G.root G.meaning (form.conditions (map view.condition conditions.now)) (element_of G.root item)) }
    {
        let mut first = number;
        for condition in conditions.as_slice() {
            let after = after_condition(first, condition)?;
            if self.is_true(condition, first, item)? == deciding {
                return Ok(deciding);
            }
            first = after;
        }
        Ok(!deciding)
    }

    /// Whether steps lead from an element to some element.
    #[cycle(evaluate)]
    fn exists(&mut self, steps: &Items<Step>, number: usize, item: NodeRef) -> Result<bool, Memory>
        requires item { IsElement G.root item }
        requires numbered { StandFrom G.conditions number (in_condition (form.exists (form.steps (map view.step steps.now)))) }
        ensures truth { IfOk result (λ truth. truth ≡ meaning.some_element (meaning.led (satisfied G.root G.meaning) (elements (plain G.root))
            (form.steps (map view.step steps.now)) (element_of G.root item ∷ []))) }
        ensures cost { Spends T.cost self.old.test self.new.test
            (price.steps_price G.root G.meaning (form.steps (map view.step steps.now)) (element_of G.root item ∷ [])) }
    {
        if let Some(truth) = self.truth(number, item) {
            return Ok(truth);
        }
        let nodes = self.led_from(steps, next(number)?, item)?;
        let truth = !nodes.is_empty();
        self.keep(number, item, truth)?;
        Ok(truth)
    }
}

/// Whether a condition asks for the text of the element itself, all of it.
fn is_of_itself(steps: &Items<Step>, ignored: &RelativePaths) -> bool
    ensures steps { result ≡ true → steps.now ≡ [] }
    ensures ignored { result ≡ true → ignored.now ≡ [] }
{
    steps.is_empty() && ignored.is_empty()
}
