//! Which selections with filters are decided by one pass through the hits of their phrases.

ghost use Rattle.std.specs.Prelude.{◌≡◌, option_map};
ghost use Rattle.plan_kinds.specs.steps.PassKinds as spec;
ghost use Rattle.plan_kinds.specs.steps.JoinedPhrases.{joined_of, kind_over};

use crate::joined::Joined;
use crate::joining::{are_two, joined_of};
use crate::pass_kind::PassKind;
use crate::phrases::filtered_of;
use ft_base::{Filter, Range, Unit};
use plan_compiler::{FilteredPlan, OperatorPlan};

/// How the phrases have to stand, and the operand that joins them, where one pass through their hits decides the selection: `ordered` over
/// phrases that are joined by `ftand`, or a distance over two of them.
pub fn pass_of(plan: &OperatorPlan) -> Option<(PassKind, &OperatorPlan)>
    ensures { option_map (λ pass. (pass.0, pass.1.now)) result ≡ spec.pass_of plan.now }
{
    match filtered_of(plan) {
        None => None,
        Some(filtered) => filtered_pass(filtered),
    }
}

fn filtered_pass(plan: &FilteredPlan) -> Option<(PassKind, &OperatorPlan)>
    ensures { option_map (λ pass. (pass.0, pass.1.now)) result ≡ kind_over spec.pass_kind plan.now (joined_of plan.now.operand) }
{
    let operand = &plan.operand;
    match joined_of(operand) {
        None => None,
        Some(joined) => match pass_kind(plan.kind, joined) {
            None => None,
            Some(kind) => Some((kind, operand)),
        },
    }
}

fn pass_kind(filter: Filter, joined: Joined) -> Option<PassKind>
    ensures { result ≡ spec.pass_kind filter joined }
{
    match filter {
        Filter::Ordered => Some(PassKind::InOrder),
        Filter::Distance(range, unit) => apart_kind(range, unit, joined),
        _ => None,
    }
}

fn apart_kind(range: Range, unit: Unit, joined: Joined) -> Option<PassKind>
    ensures { result ≡ spec.apart_kind range unit joined }
{
    if are_two(joined) {
        Some(PassKind::Apart(range, unit))
    } else {
        None
    }
}
