//! Up to which position it is known that a test rules out what steps, predicates and conditions ask for: nothing is walked for it. Each
//! result speaks of the elements whose words stand from `from` on and before it; 0 says nothing.

ghost use Rattle.std.specs.Prelude.{◌≡◌, [], true, map};
ghost use Rattle.ordered_tree.specs.Numbered.{plain};
ghost use Rattle.path_grammar.specs.Form as form;
ghost use Rattle.path_grammar.specs.View as view;
ghost use Rattle.path_meaning.specs.Meaning.{selected};
ghost use Rattle.path_nodes.specs.Asked.{OfEach, OfPredicates, OfPredicate, OfCondition, OfConditions, MayAsk};
ghost use Rattle.path_nodes.specs.Says.{satisfied};
ghost use Rattle.path_nodes.specs.steps.RuledOut.{HasNone, IsFalse, KeepNothing, KeepsNothing, LeadNowhere};

use crate::TextTest;
use ft_base::Items;
use ordered_tree::DocTree;
use path_grammar::{Condition, Predicate, Predicates, RelativePaths, Step, Steps};

/// Whether steps lead nowhere from the document since what a predicate asks for is ruled out in all of it.
pub(crate) fn lead_nowhere<T: TextTest>(tree: &DocTree, steps: &Steps, test: &T) -> bool
    requires { OfEach (MayAsk tree.now.root (T.meaning test.now)) (form.steps (map view.step steps.now)) }
    ensures { result ≡ true → selected (satisfied tree.now.root (T.meaning test.now)) (form.steps (map view.step steps.now)) (plain tree.now.root) ≡ [] }
{
    let place = skip_steps(tree, steps, 1, test);
    let root = tree.root();
    if place == u32::MAX {
        // All words stand before the greatest number, as the type of a span says: the tree itself isn't looked at.
        let _words = tree.span_of(root);
        return true;
    }
    tree.span_of(root).to <= place
}

/// Up to where a step has a predicate that is ruled out: then nothing is after it.
#[cycle(rule_out)]
fn skip_steps<T: TextTest>(tree: &DocTree, steps: &Items<Step>, from: u32, test: &T) -> u32
    requires { OfEach (MayAsk tree.now.root (T.meaning test.now)) (form.steps (map view.step steps.now)) }
    ensures { LeadNowhere tree.now.root (T.meaning test.now) from result (form.steps (map view.step steps.now)) }
{
    let mut place = 0;
    for step in steps.as_slice() {
        place = skip_predicates(tree, &step.predicates, from, test).max(place);
    }
    place
}

/// Up to where one of predicates is ruled out.
#[cycle(rule_out)]
pub(crate) fn skip_predicates<T: TextTest>(
    tree: &DocTree,
    predicates: &Predicates,
    from: u32,
    test: &T,
) -> u32
    requires { OfPredicates (MayAsk tree.now.root (T.meaning test.now)) (form.predicates (map view.predicate predicates.now)) }
    ensures { KeepNothing tree.now.root (T.meaning test.now) from result (form.predicates (map view.predicate predicates.now)) }
{
    let mut place = 0;
    for predicate in predicates.as_slice() {
        place = skip_predicate(tree, predicate, from, test).max(place);
    }
    place
}

/// Up to where a predicate is ruled out.
#[cycle(rule_out)]
fn skip_predicate<T: TextTest>(tree: &DocTree, predicate: &Predicate, from: u32, test: &T) -> u32
    requires { OfPredicate (MayAsk tree.now.root (T.meaning test.now)) (view.predicate predicate.now) }
    ensures { KeepsNothing tree.now.root (T.meaning test.now) from result (view.predicate predicate.now) }
{
    match predicate {
        Predicate::Number(_) => 0,
        Predicate::Holds(condition) => skip_condition(tree, condition, from, test),
    }
}

/// Up to where a condition is ruled out: it is false of each element.
#[cycle(rule_out)]
fn skip_condition<T: TextTest>(tree: &DocTree, condition: &Condition, from: u32, test: &T) -> u32
    requires { OfCondition (MayAsk tree.now.root (T.meaning test.now)) (view.condition condition.now) }
    ensures { IsFalse tree.now.root (T.meaning test.now) from result (view.condition condition.now) }
{
    match condition {
        Condition::Or(parts) => skip_all(tree, parts, from, test),
        Condition::And(parts) => skip_one(tree, parts, from, test),
        Condition::Not(_) => 0,
        Condition::Attribute { .. } => 0,
        Condition::Exists(steps) => skip_steps(tree, steps, from, test),
        Condition::Contains {
            steps,
            selection,
            ignored,
        } => skip_text(tree, steps, *selection, ignored, from, test),
    }
}

/// Up to where steps lead nowhere or, where nothing is ignored, no element satisfies a selection.
#[cycle(rule_out)]
fn skip_text<T: TextTest>(
    tree: &DocTree,
    steps: &Items<Step>,
    selection: usize,
    paths: &RelativePaths,
    from: u32,
    test: &T,
) -> u32
    requires steps { OfEach (MayAsk tree.now.root (T.meaning test.now)) (form.steps (map view.step steps.now)) }
    requires text { MayAsk tree.now.root (T.meaning test.now) selection }
    ensures { IsFalse tree.now.root (T.meaning test.now) from result
        (form.contains (form.steps (map view.step steps.now)) selection (form.paths (map view.relative_path paths.now))) }
{
    let place = skip_steps(tree, steps, from, test);
    if !paths.is_empty() {
        return place;
    }
    skip_selection(tree, selection, from, test).max(place)
}

/// Up to where all conditions are ruled out.
#[cycle(rule_out)]
fn skip_all<T: TextTest>(tree: &DocTree, conditions: &Items<Condition>, from: u32, test: &T) -> u32
    requires { OfConditions (MayAsk tree.now.root (T.meaning test.now)) (form.conditions (map view.condition conditions.now)) }
    ensures { IsFalse tree.now.root (T.meaning test.now) from result (form.or_of (form.conditions (map view.condition conditions.now))) }
{
    let mut place = 4_294_967_295;
    for condition in conditions.as_slice() {
        place = skip_condition(tree, condition, from, test).min(place);
    }
    place
}

/// Up to where one of conditions is ruled out.
#[cycle(rule_out)]
fn skip_one<T: TextTest>(tree: &DocTree, conditions: &Items<Condition>, from: u32, test: &T) -> u32
    requires { OfConditions (MayAsk tree.now.root (T.meaning test.now)) (form.conditions (map view.condition conditions.now)) }
    ensures { IsFalse tree.now.root (T.meaning test.now) from result (form.and_of (form.conditions (map view.condition conditions.now))) }
{
    let mut place = 0;
    for condition in conditions.as_slice() {
        place = skip_condition(tree, condition, from, test).max(place);
    }
    place
}

/// Up to where it is known at once that no element satisfies a selection.
fn skip_selection<T: TextTest>(tree: &DocTree, selection: usize, from: u32, test: &T) -> u32
    requires { MayAsk tree.now.root (T.meaning test.now) selection }
    ensures { HasNone tree.now.root (T.meaning test.now) from result selection }
{
    let _root = tree.root();
    test.skip_to(selection, from)
}
