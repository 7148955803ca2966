//! Windows in words round phrases, opened over a version.

ghost use Rattle.std.specs.Prelude.{◌≡◌, ◌<◌, ◌++◌, ◌∷◌, [], ◌&&◌, true, IfOk, OnOk};
ghost use Rattle.plan_compiler.specs.declared.operator_plan.OperatorPlan as OperatorPlan;
ghost use Rattle.plan_compiler.specs.declared.operator_plan.PhraseTests.{PhraseTests};
ghost use Rattle.plan_kinds.specs.steps.JoinedPhrases.{joined_phrases};
ghost use Rattle.match_marks.specs.steps.ShownRuns.{AreWalks, PutAfter};
ghost use Rattle.match_marks.specs.steps.WindowRuns.{all_aims, joins_phrases};

use crate::shown::WindowRun;
use ft_base::Memory;
use ft_operators::Tuples;
use index_phrases::PhraseCursor;
use plan_compiler::{OperatorPlan, OperatorSides};
use plan_runs::{Opening, open_walk};
use std::mem::drop;

/// The phrases that the operand joins.
pub(crate) fn open_window<'v>(
    opening: &Opening<'v>,
    size: u32,
    operand: &OperatorPlan,
) -> Result<WindowRun<'v>, Memory>
    requires some { 0 < size }
    requires joined { joins_phrases operand.now ≡ true }
    ensures size { IfOk result (λ run. run.size ≡ size) }
    ensures phrases { IfOk result (λ run. AreWalks opening.now.looks opening.now.lists.now.stems opening.now.version.now (all_aims run.phrases.items) (joined_phrases operand.now)) }
{
    let mut phrases = Vec::new(opening.alloc);
    match push_phrases(opening, operand, &mut phrases) {
        Ok(()) => Ok(WindowRun { phrases, size }),
        Err(memory) => {
            drop(phrases);
            Err(memory)
        }
    }
}

/// Puts each phrase that is joined after the others.
#[cycle(phrases)]
fn push_phrases<'v>(
    opening: &Opening<'v>,
    plan: &OperatorPlan,
    phrases: &mut Vec<Tuples<PhraseCursor<'v>>>,
) -> Result<(), Memory>
    ensures { OnOk result (PutAfter opening.now.looks opening.now.lists.now.stems opening.now.version.now (all_aims phrases.old.items) (all_aims phrases.new.items)
        (joins_phrases plan.now) (joined_phrases plan.now)) }
{
    match plan {
        OperatorPlan::Phrase(_phrase) => push_walk(opening, plan, phrases),
        OperatorPlan::Choice(_sides) => Ok(()),
        OperatorPlan::Both(sides) => push_sides(opening, sides, phrases),
        OperatorPlan::MildNot(_sides) => Ok(()),
        OperatorPlan::Negated(_plan) => Ok(()),
        OperatorPlan::Filtered(_plan) => Ok(()),
    }
}

#[cycle(phrases)]
fn push_sides<'v>(
    opening: &Opening<'v>,
    sides: &OperatorSides,
    phrases: &mut Vec<Tuples<PhraseCursor<'v>>>,
) -> Result<(), Memory>
    ensures { OnOk result (PutAfter opening.now.looks opening.now.lists.now.stems opening.now.version.now (all_aims phrases.old.items) (all_aims phrases.new.items)
        (joins_phrases sides.now.left && joins_phrases sides.now.right) (joined_phrases sides.now.left ++ joined_phrases sides.now.right)) }
{
    push_phrases(opening, &sides.left, phrases)?;
    push_phrases(opening, &sides.right, phrases)
}

/// Puts the walk through the hits of a phrase after the others.
fn push_walk<'v>(
    opening: &Opening<'v>,
    plan: &OperatorPlan,
    phrases: &mut Vec<Tuples<PhraseCursor<'v>>>,
) -> Result<(), Memory>
    ensures { OnOk result ((found : PhraseTests) → plan.now ≡ OperatorPlan.Phrase found
        → PutAfter opening.now.looks opening.now.lists.now.stems opening.now.version.now (all_aims phrases.old.items) (all_aims phrases.new.items) (joins_phrases plan.now) (found ∷ [])) }
{
    let walk = open_walk(opening, plan)?;
    phrases.push(walk)?;
    Ok(())
}
