//! Selections with filters and `not in`, opened over a version of the index.

ghost use Rattle.std.specs.Prelude.{◌≡◌, IfOk};
ghost use Rattle.plan_runs.specs.steps.Skips.{skip_of, opened_skip};
ghost use Rattle.plan_runs.specs.steps.OpenedOperators.{aims_of, opened_aims, phrase_opened};

use crate::choosing::Opening;
use crate::needs::Needs;
use crate::opening::{cursors_of_variants, open_variants};
use crate::opening_needs::open_needs;
use crate::run_ways::RunWays;
use ft_base::Memory;
use ft_operators::{Chain, Tuples};
use index_phrases::PhraseCursor;
use plan_compiler::{OperatorPlan, OperatorSides, PhraseTests, WaysPlan};
use std::mem::drop;

/// The walk through the ways of a compiled selection, with all memory that it needs.
pub(crate) fn open_ways<'v>(
    opening: &Opening<'v>,
    plan: &WaysPlan,
) -> Result<Box<RunWays<'v>>, Memory>
    ensures aims { IfOk result (λ run. aims_of run.value.tuples
        ≡ opened_aims opening.now.looks opening.now.lists.now.stems opening.now.version.now plan.now.operator) }
    ensures skips { IfOk result (λ run. skip_of run.value.needs
        ≡ opened_skip opening.now.looks opening.now.lists.now.stems opening.now.version.now plan.now.operator) }
{
    let needs = open_needs(opening, &plan.operator)?;
    match open_operator(opening, &plan.operator) {
        Ok(tuples) => ways_with(opening, tuples, needs),
        Err(memory) => {
            drop(needs);
            Err(memory)
        }
    }
}

/// The walk with a chain of filters for it.
fn ways_with<'v>(
    opening: &Opening<'v>,
    tuples: Tuples<PhraseCursor<'v>>,
    needs: Needs<'v>,
) -> Result<Box<RunWays<'v>>, Memory>
    ensures aims { IfOk result (λ run. aims_of run.value.tuples ≡ aims_of tuples.entry) }
    ensures skips { IfOk result (λ run. skip_of run.value.needs ≡ skip_of needs.entry) }
{
    let (filters, hits) = tuples.room();
    match Chain::open(opening.alloc, filters, hits) {
        Ok(chain) => boxed_ways(
            opening,
            RunWays {
                tuples,
                chain,
                needs,
            },
        ),
        Err(memory) => {
            drop(tuples);
            drop(needs);
            Err(memory)
        }
    }
}

fn boxed_ways<'v>(opening: &Opening<'v>, ways: RunWays<'v>) -> Result<Box<RunWays<'v>>, Memory>
    ensures aims { IfOk result (λ run. aims_of run.value.tuples ≡ aims_of ways.entry.tuples) }
    ensures skips { IfOk result (λ run. skip_of run.value.needs ≡ skip_of ways.entry.needs) }
{
    match Box::new(opening.alloc, ways) {
        Ok(run) => Ok(run),
        Err(failed) => {
            drop(failed);
            Err(Memory)
        }
    }
}

/// The walk through the ways of what is made of phrases.
#[cycle(operator)]
pub(crate) fn open_operator<'v>(
    opening: &Opening<'v>,
    plan: &OperatorPlan,
) -> Result<Tuples<PhraseCursor<'v>>, Memory>
    ensures { IfOk result (λ tuples. aims_of tuples ≡ opened_aims opening.now.looks opening.now.lists.now.stems opening.now.version.now plan.now) }
{
    match plan {
        OperatorPlan::Phrase(phrase) => open_phrase(opening, phrase),
        OperatorPlan::Choice(sides) => {
            let (left, right) = open_sides(opening, sides)?;
            Tuples::choice(opening.alloc, left, right)
        }
        OperatorPlan::Both(sides) => {
            let (left, right) = open_sides(opening, sides)?;
            Tuples::both(opening.alloc, left, right)
        }
        OperatorPlan::MildNot(sides) => {
            let (left, right) = open_sides(opening, sides)?;
            Tuples::mild_not(opening.alloc, left, right)
        }
        OperatorPlan::Negated(plan) => {
            let operand = open_operator(opening, &plan.operand)?;
            Tuples::negated(opening.alloc, operand)
        }
        OperatorPlan::Filtered(plan) => {
            let operand = open_operator(opening, &plan.operand)?;
            Tuples::filtered(opening.alloc, operand, plan.kind)
        }
    }
}

#[cycle(operator)]
fn open_sides<'v>(
    opening: &Opening<'v>,
    sides: &OperatorSides,
) -> Result<(Tuples<PhraseCursor<'v>>, Tuples<PhraseCursor<'v>>), Memory>
    ensures left { IfOk result (λ pair. aims_of pair.0 ≡ opened_aims opening.now.looks opening.now.lists.now.stems opening.now.version.now sides.now.left) }
    ensures right { IfOk result (λ pair. aims_of pair.1 ≡ opened_aims opening.now.looks opening.now.lists.now.stems opening.now.version.now sides.now.right) }
{
    let left = open_operator(opening, &sides.left)?;
    match open_operator(opening, &sides.right) {
        Ok(right) => Ok((left, right)),
        Err(memory) => {
            drop(left);
            Err(memory)
        }
    }
}

/// The hits of a phrase. Its terms have cursors of their own.
fn open_phrase<'v>(
    opening: &Opening<'v>,
    phrase: &PhraseTests,
) -> Result<Tuples<PhraseCursor<'v>>, Memory>
    ensures { IfOk result (λ tuples. aims_of tuples
        ≡ phrase_opened opening.now.looks opening.now.lists.now.stems opening.now.version.now phrase.now) }
{
    let terms = open_variants(opening, phrase.variants.as_slice())?;
    let variants = cursors_of_variants(opening, &terms)?;
    let cursor = PhraseCursor::new(opening.version, phrase.number, terms, variants);
    Tuples::one(opening.alloc, cursor)
}
