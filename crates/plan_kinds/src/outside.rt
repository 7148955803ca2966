//! Which selections ask that a phrase stands outside another one.

ghost use Rattle.std.specs.Prelude.{◌≡◌, option_map};
ghost use Rattle.plan_kinds.specs.steps.JoinedPhrases.{negated_phrase, phrase_of};
ghost use Rattle.plan_kinds.specs.steps.OutsidePhrases as spec;
ghost use Rattle.plan_kinds.specs.steps.PlacedPhrases.{both_of};

use crate::joining::is_word;
use crate::phrases::{negated_phrase, phrase_of};
use ft_base::{Filter, Unit};
use plan_compiler::{FilteredPlan, OperatorPlan, OperatorSides, PhraseTests};
use spot_merges::Outside;

/// How the first of two phrases has to stand outside the second, where the selection is the first `not in` the second, or a window in
/// words over a single word and another one that is negated, whichever of them comes first.
pub fn outside_of(plan: &OperatorPlan) -> Option<(Outside, &PhraseTests, &PhraseTests)>
    ensures { option_map (λ found. (found.0, found.1.now, found.2.now)) result ≡ spec.outside_of plan.now }
{
    match plan {
        OperatorPlan::Phrase(_phrase) => None,
        OperatorPlan::Choice(_sides) => None,
        OperatorPlan::Both(_sides) => None,
        OperatorPlan::MildNot(sides) => uncovered(sides),
        OperatorPlan::Negated(_plan) => None,
        OperatorPlan::Filtered(plan) => filtered_outside(plan),
    }
}

/// A phrase that another one doesn't cover.
fn uncovered(sides: &OperatorSides) -> Option<(Outside, &PhraseTests, &PhraseTests)>
    ensures { option_map (λ found. (found.0, found.1.now, found.2.now)) result ≡ spec.uncovered sides.now.left sides.now.right }
{
    match phrase_of(&sides.left) {
        None => None,
        Some(left) => match phrase_of(&sides.right) {
            None => None,
            Some(right) => Some((Outside::Cover, left, right)),
        },
    }
}

fn filtered_outside(plan: &FilteredPlan) -> Option<(Outside, &PhraseTests, &PhraseTests)>
    ensures { option_map (λ found. (found.0, found.1.now, found.2.now)) result ≡ spec.filtered_outside plan.now }
{
    match filter_outside(plan.kind) {
        None => None,
        Some(outside) => match word_without(&plan.operand) {
            None => None,
            Some((word, other)) => Some((outside, word, other)),
        },
    }
}

fn filter_outside(filter: Filter) -> Option<Outside>
    ensures { result ≡ spec.filter_outside filter }
{
    match filter {
        Filter::Window(size, Unit::Words) => Some(Outside::Window(size)),
        _ => None,
    }
}

/// A single word, and another one that is negated.
fn word_without(plan: &OperatorPlan) -> Option<(&PhraseTests, &PhraseTests)>
    ensures { option_map (λ found. (found.0.now, found.1.now)) result ≡ spec.word_without plan.now }
{
    match phrase_without(plan) {
        None => None,
        Some((phrase, other)) => {
            if is_word(phrase) && is_word(other) {
                Some((phrase, other))
            } else {
                None
            }
        }
    }
}

/// A phrase, and another one that is negated.
fn phrase_without(plan: &OperatorPlan) -> Option<(&PhraseTests, &PhraseTests)>
    ensures { option_map (λ found. (found.0.now, found.1.now)) result ≡ spec.phrase_without plan.now }
{
    match plan {
        OperatorPlan::Phrase(_phrase) => None,
        OperatorPlan::Choice(_sides) => None,
        OperatorPlan::Both(sides) => sides_without(sides),
        OperatorPlan::MildNot(_sides) => None,
        OperatorPlan::Negated(_plan) => None,
        OperatorPlan::Filtered(_plan) => None,
    }
}

fn sides_without(sides: &OperatorSides) -> Option<(&PhraseTests, &PhraseTests)>
    ensures { option_map (λ found. (found.0.now, found.1.now)) result ≡ spec.sides_without sides.now.left sides.now.right }
{
    match side_without(&sides.left, &sides.right) {
        Some((phrase, other)) => Some((phrase, other)),
        None => side_without(&sides.right, &sides.left),
    }
}

fn side_without<'p>(
    side: &'p OperatorPlan,
    negated: &'p OperatorPlan,
) -> Option<(&'p PhraseTests, &'p PhraseTests)>
    ensures { option_map (λ found. (found.0.now, found.1.now)) result ≡ both_of (phrase_of side.now) (negated_phrase negated.now) }
{
    match phrase_of(side) {
        None => None,
        Some(phrase) => match negated_phrase(negated) {
            None => None,
            Some(other) => Some((phrase, other)),
        },
    }
}
