//! The parts of a plan that a filter or `not in` stands over.

ghost use Rattle.std.specs.Prelude.{◌≡◌, option_map};
ghost use Rattle.plan_kinds.specs.steps.JoinedPhrases as spec;

use plan_compiler::{FilteredPlan, OperatorPlan, PhraseTests};

/// The phrase that the plan is, if it is one.
pub(crate) fn phrase_of(plan: &OperatorPlan) -> Option<&PhraseTests>
    ensures { option_map (λ phrase. phrase.now) result ≡ spec.phrase_of plan.now }
{
    match plan {
        OperatorPlan::Phrase(phrase) => Some(phrase),
        OperatorPlan::Choice(_sides) => None,
        OperatorPlan::Both(_sides) => None,
        OperatorPlan::MildNot(_sides) => None,
        OperatorPlan::Negated(_plan) => None,
        OperatorPlan::Filtered(_plan) => None,
    }
}

/// The phrase that the plan negates, if it negates one.
pub(crate) fn negated_phrase(plan: &OperatorPlan) -> Option<&PhraseTests>
    ensures { option_map (λ phrase. phrase.now) result ≡ spec.negated_phrase plan.now }
{
    match plan {
        OperatorPlan::Phrase(_phrase) => None,
        OperatorPlan::Choice(_sides) => None,
        OperatorPlan::Both(_sides) => None,
        OperatorPlan::MildNot(_sides) => None,
        OperatorPlan::Negated(plan) => phrase_of(&plan.operand),
        OperatorPlan::Filtered(_plan) => None,
    }
}

/// The filter that the plan is, with its operand.
pub(crate) fn filtered_of(plan: &OperatorPlan) -> Option<&FilteredPlan>
    ensures { option_map (λ filtered. filtered.now) result ≡ spec.filtered_of plan.now }
{
    match plan {
        OperatorPlan::Phrase(_phrase) => None,
        OperatorPlan::Choice(_sides) => None,
        OperatorPlan::Both(_sides) => None,
        OperatorPlan::MildNot(_sides) => None,
        OperatorPlan::Negated(_plan) => None,
        OperatorPlan::Filtered(plan) => Some(plan),
    }
}
