//! Choices of phrases in compiled selections, united: a choice of phrases is one phrase that has the variants of all.

ghost use Rattle.std.specs.Prelude.{◌≡◌, ℕ, false, Box, IfOk, MatchResult};
ghost use Rattle.std.specs.Global.{Global as G};
ghost use Rattle.plan_compiler.specs.steps.Uniting.{IsUnited, Unites, UnitesBoth, is_phrase, one_phrase};
ghost use Rattle.plan_compiler.specs.declared.operator_plan.OperatorPlan as O;
ghost use Rattle.plan_compiler.specs.declared.operator_plan.OperatorSides.{OperatorSides};

use crate::operator_plan::{FilteredPlan, NegatedPlan, OperatorPlan, OperatorSides, PhraseTests};
use ft_base::Memory;
use std::alloc::Global;
use std::mem::drop;

/// The plan with each choice of phrases as one phrase, its phrases being numbered one after the other from 1 on.
pub(crate) fn unite_choices(alloc: Global, plan: OperatorPlan) -> Result<OperatorPlan, Memory>
    ensures { IfOk result (λ made. IsUnited plan made) }
{
    let mut next = 1;
    let made = unite(alloc, plan, &mut next)?;
    Ok(made)
}

/// The same, its phrases being numbered from `next` on.
#[cycle(uniting)]
fn unite(alloc: Global, plan: OperatorPlan, next: &mut u32) -> Result<OperatorPlan, Memory>
    ensures { IfOk result (λ made. Unites next.old next.new plan made) }
{
    match plan {
        OperatorPlan::Phrase(found) => number_phrase(found, next),
        OperatorPlan::Choice(sides) => {
            let (made, middle) = unite_both(alloc, Box::into_inner(sides), next)?;
            choice_of(alloc, made, middle, next)
        }
        OperatorPlan::Both(sides) => {
            let (made, _middle) = unite_both(alloc, Box::into_inner(sides), next)?;
            Ok(OperatorPlan::Both(Box::new(alloc, made)?))
        }
        OperatorPlan::MildNot(sides) => {
            let (made, _middle) = unite_both(alloc, Box::into_inner(sides), next)?;
            Ok(OperatorPlan::MildNot(Box::new(alloc, made)?))
        }
        OperatorPlan::Negated(negated) => {
            let NegatedPlan { operand } = Box::into_inner(negated);
            let operand = unite(alloc, operand, next)?;
            Ok(OperatorPlan::Negated(Box::new(alloc, NegatedPlan { operand })?))
        }
        OperatorPlan::Filtered(filtered) => {
            let FilteredPlan { operand, kind } = Box::into_inner(filtered);
            let operand = unite(alloc, operand, next)?;
            Ok(OperatorPlan::Filtered(Box::new(alloc, FilteredPlan { operand, kind })?))
        }
    }
}

/// The same of two sides, with the number after those of the left one.
#[cycle(uniting)]
fn unite_both(
    alloc: Global,
    sides: OperatorSides,
    next: &mut u32,
) -> Result<(OperatorSides, u32), Memory>
    ensures { IfOk result (λ made. UnitesBoth next.old made.1 next.new sides made.0) }
{
    let OperatorSides { left, right } = sides;
    match unite(alloc, left, next) {
        Ok(left) => {
            let middle = *next;
            match unite(alloc, right, next) {
                Ok(right) => Ok((OperatorSides { left, right }, middle)),
                Err(memory) => {
                    drop(left);
                    Err(memory)
                }
            }
        }
        Err(memory) => {
            drop(right);
            Err(memory)
        }
    }
}

/// The phrase with the next number. Numbers are of 32 bits: where none is left, no memory is found.
fn number_phrase(found: PhraseTests, next: &mut u32) -> Result<OperatorPlan, Memory>
    ensures { IfOk result (λ made. Unites next.old next.new (O.Phrase found) made) }
{
    let number = *next;
    match number.checked_add(1) {
        Some(following) => {
            *next = following;
            Ok(OperatorPlan::Phrase(PhraseTests {
                number,
                variants: found.variants,
            }))
        }
        None => {
            drop(found);
            Err(Memory)
        }
    }
}

/// A choice of two sides that are united, of which the left one has the numbers before `middle`: one phrase, where both are.
fn choice_of(
    alloc: Global,
    sides: OperatorSides,
    middle: u32,
    next: &mut u32,
) -> Result<OperatorPlan, Memory>
    ensures { IfOk result (λ made. (first : ℕ) (before : Box OperatorSides G) → UnitesBoth first middle next.old before.value sides
        → Unites first next.new (O.Choice before) made) }
{
    let OperatorSides { left, right } = sides;
    match phrase_or_plan(left) {
        Ok(found) => choice_after(alloc, found, right, middle, next),
        Err(left) => Ok(OperatorPlan::Choice(Box::new(alloc, OperatorSides { left, right })?)),
    }
}

/// The same, where the left side is a phrase.
fn choice_after(
    alloc: Global,
    found: PhraseTests,
    right: OperatorPlan,
    middle: u32,
    next: &mut u32,
) -> Result<OperatorPlan, Memory>
    ensures { IfOk result (λ made. (first : ℕ) (before : Box OperatorSides G) → Unites first middle before.value.left (O.Phrase found)
        → Unites middle next.old before.value.right right → Unites first next.new (O.Choice before) made) }
{
    match phrase_or_plan(right) {
        Ok(other) => {
            *next = middle;
            one_phrase_of(found, other)
        }
        Err(right) => {
            let left = OperatorPlan::Phrase(found);
            Ok(OperatorPlan::Choice(Box::new(alloc, OperatorSides { left, right })?))
        }
    }
}

/// The phrase that a plan is, or else the plan.
fn phrase_or_plan(plan: OperatorPlan) -> Result<PhraseTests, OperatorPlan>
    ensures { MatchResult result (λ found. plan ≡ O.Phrase found) (λ other. (other ≡ plan) × (is_phrase plan ≡ false)) }
{
    match plan {
        OperatorPlan::Phrase(found) => Ok(found),
        other => Err(other),
    }
}

/// One phrase in the place of two.
fn one_phrase_of(found: PhraseTests, other: PhraseTests) -> Result<OperatorPlan, Memory>
    ensures { IfOk result (λ made. made ≡ O.Phrase (one_phrase found other)) }
{
    let PhraseTests {
        number,
        mut variants,
    } = found;
    match variants.append(other.variants) {
        Ok(()) => Ok(OperatorPlan::Phrase(PhraseTests { number, variants })),
        Err(memory) => {
            drop(variants);
            Err(memory)
        }
    }
}
