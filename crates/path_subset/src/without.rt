//! Whether a path asks somewhere for text without content.
#![tactic(auto, using(
// what predicates, conditions and steps stand for
crate::proofs::WithoutLemmas::views), unfolding(path_grammar::specs::Without::has_without, path_grammar::specs::Without::predicates_have, path_grammar::specs::Without::predicate_has, path_grammar::specs::Without::condition_has, path_grammar::specs::Without::conditions_have))]

ghost use Rattle.std.specs.Prelude.{◌≡◌, map};
ghost use Rattle.path_grammar.specs.Form as form;
ghost use Rattle.path_grammar.specs.View as view;
ghost use Rattle.path_grammar.specs.Without.{condition_has, conditions_have, has_without, predicate_has, predicates_have};
ghost use Rattle.path_subset.specs.Paths.{read_form};

use crate::ReadPath;
use ft_base::Items;
use path_grammar::{Condition, Predicate, Predicates, Steps};

impl ReadPath {
    /// Whether some `contains text` of the path goes on with `without content`.
    pub fn has_without(&self) -> bool
        ensures { result ≡ has_without (read_form self.now).path.steps }
    {
        some_step(&self.path.steps)
    }
}

#[cycle(without)]
fn some_step(steps: &Steps) -> bool
    ensures { result ≡ has_without (form.steps (map view.step steps.now)) }
{
    for step in steps.as_slice() {
        if some_predicate(&step.predicates) {
            return true;
        }
    }
    false
}

#[cycle(without)]
fn some_predicate(predicates: &Predicates) -> bool
    ensures { result ≡ predicates_have (form.predicates (map view.predicate predicates.now)) }
{
    for predicate in predicates.as_slice() {
        if in_predicate(predicate) {
            return true;
        }
    }
    false
}

#[cycle(without)]
fn in_predicate(predicate: &Predicate) -> bool
    ensures { result ≡ predicate_has (view.predicate predicate.now) }
{
    match predicate {
        Predicate::Number(_) => false,
        Predicate::Holds(condition) => in_condition(condition),
    }
}

#[cycle(without)]
fn in_condition(condition: &Condition) -> bool
    ensures { result ≡ condition_has (view.condition condition.now) }
{
    match condition {
        Condition::Or(parts) => some_condition(parts),
        Condition::And(parts) => some_condition(parts),
        Condition::Not(operand) => in_condition(operand),
        Condition::Attribute { .. } => false,
        Condition::Exists(steps) => some_step(steps),
        Condition::Contains { steps, ignored, .. } => {
            if ignored.is_empty() {
                some_step(steps)
            } else {
                true
            }
        }
    }
}

#[cycle(without)]
fn some_condition(conditions: &Items<Condition>) -> bool
    ensures { result ≡ conditions_have (form.conditions (map view.condition conditions.now)) }
{
    for condition in conditions.as_slice() {
        if in_condition(condition) {
            return true;
        }
    }
    false
}
