//! Phrases under windows and scopes, opened over a version of the index.

ghost use Rattle.std.specs.Prelude.{◌≡◌, ◌&&◌, true, IfOk};
ghost use Rattle.index_phrases.specs.Cursors.{state_of};
ghost use Rattle.phrase_merges.specs.NearTrees.{lists_aims, near_aims, near_lists};
ghost use Rattle.plan_kinds.specs.steps.NearPlans.{is_near};
ghost use Rattle.plan_runs.specs.steps.NearRuns.{near_opened, variant_lists};
ghost use Rattle.plan_runs.specs.steps.Passes.{phrase_variants};
ghost use Rattle.plan_runs.specs.steps.Skips.{opened_skip, skip_of};

use crate::choosing::Opening;
use crate::opening_hits::open_each;
use crate::opening_needs::open_needs;
use crate::run_near::RunNear;
use ft_base::Memory;
use index_phrases::PhraseCursor;
use phrase_merges::NearTree;
use plan_compiler::{OperatorPlan, OperatorSides, PhraseTests};
use std::mem::drop;

/// The phrases opened to stand in their windows and scopes, and what the whole selection needs.
pub(crate) fn open_near<'v>(
    opening: &Opening<'v>,
    plan: &OperatorPlan,
) -> Result<Box<RunNear<'v>>, Memory>
    requires { is_near plan.now ≡ true }
    ensures aims { IfOk result (λ run. near_aims state_of run.value.tree
        ≡ near_opened opening.now.looks opening.now.lists.now.stems opening.now.version.now plan.now) }
    ensures lists { IfOk result (λ run. near_lists state_of run.value.tree
        ≡ variant_lists opening.now.looks opening.now.lists.now.stems opening.now.version.now plan.now) }
    ensures skips { IfOk result (λ run. skip_of run.value.needs
        ≡ opened_skip opening.now.looks opening.now.lists.now.stems opening.now.version.now plan.now) }
{
    let needs = open_needs(opening, plan)?;
    match open_tree(opening, plan) {
        Ok(tree) => boxed_near(opening, RunNear { tree, needs }),
        Err(memory) => {
            drop(needs);
            Err(memory)
        }
    }
}

fn boxed_near<'v>(opening: &Opening<'v>, near: RunNear<'v>) -> Result<Box<RunNear<'v>>, Memory>
    ensures aims { IfOk result (λ run. near_aims state_of run.value.tree ≡ near_aims state_of near.entry.tree) }
    ensures lists { IfOk result (λ run. near_lists state_of run.value.tree ≡ near_lists state_of near.entry.tree) }
    ensures skips { IfOk result (λ run. skip_of run.value.needs ≡ skip_of near.entry.needs) }
{
    match Box::new(opening.alloc, near) {
        Ok(run) => Ok(run),
        Err(failed) => {
            drop(failed);
            Err(Memory)
        }
    }
}

#[cycle(tree)]
fn open_tree<'v>(
    opening: &Opening<'v>,
    plan: &OperatorPlan,
) -> Result<NearTree<PhraseCursor<'v>>, Memory>
    requires { is_near plan.now ≡ true }
    ensures aims { IfOk result (λ tree. near_aims state_of tree
        ≡ near_opened opening.now.looks opening.now.lists.now.stems opening.now.version.now plan.now) }
    ensures lists { IfOk result (λ tree. near_lists state_of tree
        ≡ variant_lists opening.now.looks opening.now.lists.now.stems opening.now.version.now plan.now) }
{
    match plan {
        OperatorPlan::Phrase(phrase) => open_phrase(opening, phrase),
        OperatorPlan::Choice(sides) => {
            let (left, right) = open_sides(opening, sides)?;
            NearTree::either(opening.alloc, left, right)
        }
        OperatorPlan::Both(sides) => {
            let (left, right) = open_sides(opening, sides)?;
            NearTree::both(opening.alloc, left, right)
        }
        OperatorPlan::MildNot(_sides) => unreachable!(),
        OperatorPlan::Negated(_plan) => unreachable!(),
        OperatorPlan::Filtered(plan) => {
            let operand = open_tree(opening, &plan.operand)?;
            NearTree::within(opening.alloc, operand, plan.kind)
        }
    }
}

#[cycle(tree)]
fn open_sides<'v>(
    opening: &Opening<'v>,
    sides: &OperatorSides,
) -> Result<(NearTree<PhraseCursor<'v>>, NearTree<PhraseCursor<'v>>), Memory>
    requires { (is_near sides.now.left && is_near sides.now.right) ≡ true }
    ensures left { IfOk result (λ pair. near_aims state_of pair.0
        ≡ near_opened opening.now.looks opening.now.lists.now.stems opening.now.version.now sides.now.left) }
    ensures left_lists { IfOk result (λ pair. near_lists state_of pair.0
        ≡ variant_lists opening.now.looks opening.now.lists.now.stems opening.now.version.now sides.now.left) }
    ensures right { IfOk result (λ pair. near_aims state_of pair.1
        ≡ near_opened opening.now.looks opening.now.lists.now.stems opening.now.version.now sides.now.right) }
    ensures right_lists { IfOk result (λ pair. near_lists state_of pair.1
        ≡ variant_lists opening.now.looks opening.now.lists.now.stems opening.now.version.now sides.now.right) }
{
    let left = open_tree(opening, &sides.left)?;
    match open_tree(opening, &sides.right) {
        Ok(right) => Ok((left, right)),
        Err(memory) => {
            drop(left);
            Err(memory)
        }
    }
}

/// The hits of each variant of a phrase.
fn open_phrase<'v>(
    opening: &Opening<'v>,
    phrase: &PhraseTests,
) -> Result<NearTree<PhraseCursor<'v>>, Memory>
    ensures aims { IfOk result (λ tree. near_aims state_of tree
        ≡ lists_aims (phrase_variants opening.now.looks opening.now.lists.now.stems opening.now.version.now phrase.now)) }
    ensures lists { IfOk result (λ tree. near_lists state_of tree
        ≡ phrase_variants opening.now.looks opening.now.lists.now.stems opening.now.version.now phrase.now) }
{
    let variants = open_each(opening, phrase.number, phrase.variants.as_slice())?;
    Ok(NearTree::phrase(variants))
}
