//! Walks through the ways of compiled operators, opened over a version.

ghost use Rattle.std.specs.Prelude.{IfOk};
ghost use Rattle.plan_runs.specs.OpenedParts.{IsWalk};
ghost use Rattle.plan_runs.specs.steps.OpenedOperators.{aims_of};

use crate::choosing::Opening;
use crate::opening_operators::open_operator;
use ft_base::Memory;
use ft_operators::Tuples;
use index_phrases::PhraseCursor;
use plan_compiler::OperatorPlan;

/// The walk through the ways of the operator in spans of the version's documents.
pub fn open_walk<'v>(
    opening: &Opening<'v>,
    plan: &OperatorPlan,
) -> Result<Tuples<PhraseCursor<'v>>, Memory>
    ensures { IfOk result (λ tuples. IsWalk opening.now.looks opening.now.lists.now.stems opening.now.version.now (aims_of tuples) plan.now) }
{
    open_operator(opening, plan)
}
