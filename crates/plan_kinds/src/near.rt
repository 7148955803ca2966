//! Which selections with filters ask for nothing but that phrases stand in windows and scopes.

ghost use Rattle.std.specs.Prelude.{◌≡◌, ◌&&◌};
ghost use Rattle.phrase_merges.specs.Near as field;
ghost use Rattle.plan_kinds.specs.steps.NearPlans as spec;

use ft_base::Filter;
use plan_compiler::{FilteredPlan, OperatorPlan, OperatorSides};

/// Whether the selection is made of phrases by `ftor`, `ftand`, windows, `same sentence` and `same paragraph` alone.
#[cycle(near)]
pub fn is_near(plan: &OperatorPlan) -> bool
    ensures { result ≡ spec.is_near plan.now }
{
    match plan {
        OperatorPlan::Phrase(_phrase) => true,
        OperatorPlan::Choice(sides) => are_near(sides),
        OperatorPlan::Both(sides) => are_near(sides),
        OperatorPlan::MildNot(_sides) => false,
        OperatorPlan::Negated(_plan) => false,
        OperatorPlan::Filtered(plan) => is_field_over(plan),
    }
}

#[cycle(near)]
fn are_near(sides: &OperatorSides) -> bool
    ensures { result ≡ (spec.is_near sides.now.left && spec.is_near sides.now.right) }
{
    is_near(&sides.left) && is_near(&sides.right)
}

#[cycle(near)]
fn is_field_over(plan: &FilteredPlan) -> bool
    ensures { result ≡ (field.is_field plan.now.kind && spec.is_near plan.now.operand) }
{
    is_field(plan.kind) && is_near(&plan.operand)
}

fn is_field(filter: Filter) -> bool
    ensures { result ≡ field.is_field filter }
{
    match filter {
        Filter::Window(_size, _unit) => true,
        Filter::SameSentence => true,
        Filter::SameParagraph => true,
        _ => false,
    }
}
