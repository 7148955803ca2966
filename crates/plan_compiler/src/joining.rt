//! Operands of compiled selections, joined.

ghost use Rattle.std.specs.Prelude.{◌≡◌, ℕ, ◌+◌, ◌-◌, ◌<◌, ◌&&◌, [], ◌∷◌, map, option_map, is_some, IfOk, None, Some};
ghost use Rattle.std.specs.List.{sum_by};
ghost use Rattle.all_matches.specs.Ways.{apart, negated, phrase, through_filter};
ghost use Rattle.plan_compiler.specs.CheapPlans.{is_cheap_operator, last_word, word_number};
ghost use Rattle.plan_compiler.specs.CheapSelections.{is_cheap_filter};
ghost use Rattle.plan_compiler.specs.NodeCosts.{operator_cost};
ghost use Rattle.plan_compiler.specs.Operators.{LookedText, joined_of, operator_at};
ghost use Rattle.plan_compiler.specs.declared.item_matching.ItemTest.{ItemTest};
ghost use Rattle.plan_compiler.specs.declared.joining.Join.TheVariants.{Both};
ghost use Rattle.plan_compiler.specs.declared.operator_plan.OperatorPlan.{OperatorPlan};
ghost use Rattle.plan_compiler.specs.steps.Joins.{AreWordsFrom, EndsBefore, cost_before, joined, joined_after, joined_from, joined_last, last_after};

use crate::operator_plan::{FilteredPlan, NegatedPlan, OperatorPlan, OperatorSides, PhraseTests};
use ft_base::{Filter, Items, Memory};
use std::alloc::Global;
use std::mem::drop;

/// How operands are joined: one of them, or all.
#[derive(Clone, Copy)]
pub(crate) enum Join {
    Choice,
    Both,
}

/// Some operands, joined from the left to the right.
pub(crate) fn join_operands(
    alloc: Global,
    join: Join,
    operands: Items<OperatorPlan>,
) -> Result<OperatorPlan, Memory>
    ensures same { IfOk result (λ plan. (text : LookedText) → operator_at text plan ≡ joined_of join (map (operator_at text) operands)) }
    ensures cost { IfOk result (λ plan. (cost : ItemTest → ℕ) → operator_cost cost plan ≡ sum_by (operator_cost cost) operands) }
    ensures alone { IfOk result (λ plan. (one : OperatorPlan) → operands ≡ one ∷ [] → plan ≡ one) }
    ensures words { IfOk result (λ plan. (first next : ℕ) → join ≡ Both → AreWordsFrom first next operands → first < next
        → last_word plan ≡ Some (next - 1)) }
{
    let joined = join_some(alloc, join, operands)?;
    match joined {
        Some(plan) => Ok(plan),
        None => without_operands(alloc, join),
    }
}

/// The operands joined, if there are some.
fn join_some(
    alloc: Global,
    join: Join,
    operands: Items<OperatorPlan>,
) -> Result<Option<OperatorPlan>, Memory>
    ensures same { IfOk result (λ plan. (text : LookedText)
        → option_map (operator_at text) plan ≡ joined_from join None (map (operator_at text) operands)) }
    ensures cost { IfOk result (λ plan. (cost : ItemTest → ℕ) → cost_before cost plan ≡ sum_by (operator_cost cost) operands) }
    ensures alone { IfOk result (λ plan. (one : OperatorPlan) → operands ≡ one ∷ [] → plan ≡ Some one) }
    ensures words { IfOk result (λ plan. (first next : ℕ) → join ≡ Both → AreWordsFrom first next operands → EndsBefore first next plan) }
{
    let mut before = None;
    for next in operands.into_vec() {
        before = Some(plan_after(alloc, join, before, next)?);
    }
    Ok(before)
}

/// An operand after those that were joined before, if there were some.
fn plan_after(
    alloc: Global,
    join: Join,
    before: Option<OperatorPlan>,
    next: OperatorPlan,
) -> Result<OperatorPlan, Memory>
    ensures same { IfOk result (λ plan. (text : LookedText)
        → operator_at text plan ≡ joined_after join (option_map (operator_at text) before) (operator_at text next)) }
    ensures cost { IfOk result (λ plan. (cost : ItemTest → ℕ) → operator_cost cost plan ≡ cost_before cost before + operator_cost cost next) }
    ensures alone { IfOk result (λ plan. before ≡ None → plan ≡ next) }
    ensures last { IfOk result (λ plan. last_word plan ≡ last_after join before next) }
{
    match before {
        Some(left) => joined_plan(alloc, join, left, next),
        None => Ok(next),
    }
}

fn joined_plan(
    alloc: Global,
    join: Join,
    left: OperatorPlan,
    right: OperatorPlan,
) -> Result<OperatorPlan, Memory>
    ensures same { IfOk result (λ plan. (text : LookedText) → operator_at text plan ≡ joined join (operator_at text left) (operator_at text right)) }
    ensures cost { IfOk result (λ plan. (cost : ItemTest → ℕ) → operator_cost cost plan ≡ operator_cost cost left + operator_cost cost right) }
    ensures last { IfOk result (λ plan. last_word plan ≡ joined_last join (last_word left) (word_number right)) }
{
    let sides = boxed_sides(alloc, left, right)?;
    match join {
        Join::Choice => Ok(OperatorPlan::Choice(sides)),
        Join::Both => Ok(OperatorPlan::Both(sides)),
    }
}

/// What is made of no operand: of a choice, what has no hit; of all of none, what needs nothing.
fn without_operands(alloc: Global, join: Join) -> Result<OperatorPlan, Memory>
    ensures same { IfOk result (λ plan. (text : LookedText) → operator_at text plan ≡ joined_of join []) }
    ensures cost { IfOk result (λ plan. (cost : ItemTest → ℕ) → operator_cost cost plan ≡ 0) }
{
    match join {
        Join::Choice => Ok(no_hit(alloc, 0)),
        Join::Both => negated_plan(alloc, no_hit(alloc, 0)),
    }
}

/// A phrase of that number that stands nowhere.
pub(crate) fn no_hit(alloc: Global, number: u32) -> OperatorPlan
    ensures same { (text : LookedText) → operator_at text result ≡ phrase [] }
    ensures cost { (cost : ItemTest → ℕ) → operator_cost cost result ≡ 0 }
    ensures word { word_number result ≡ Some number }
{
    OperatorPlan::Phrase(PhraseTests {
        number,
        variants: Items::new(alloc),
    })
}

pub(crate) fn mild_not_plan(
    alloc: Global,
    left: OperatorPlan,
    right: OperatorPlan,
) -> Result<OperatorPlan, Memory>
    ensures same { IfOk result (λ plan. (text : LookedText) → operator_at text plan ≡ apart (operator_at text left) (operator_at text right)) }
    ensures cost { IfOk result (λ plan. (cost : ItemTest → ℕ) → operator_cost cost plan ≡ operator_cost cost left + operator_cost cost right) }
{
    Ok(OperatorPlan::MildNot(boxed_sides(alloc, left, right)?))
}

fn boxed_sides(
    alloc: Global,
    left: OperatorPlan,
    right: OperatorPlan,
) -> Result<Box<OperatorSides>, Memory>
    ensures { IfOk result (λ sides. sides.value ≡ record { left = left; right = right }) }
{
    match Box::new(alloc, OperatorSides { left, right }) {
        Ok(sides) => Ok(sides),
        Err(failed) => {
            drop(failed);
            Err(Memory)
        }
    }
}

pub(crate) fn negated_plan(alloc: Global, operand: OperatorPlan) -> Result<OperatorPlan, Memory>
    ensures same { IfOk result (λ plan. (text : LookedText) → operator_at text plan ≡ negated (operator_at text operand)) }
    ensures cost { IfOk result (λ plan. (cost : ItemTest → ℕ) → operator_cost cost plan ≡ operator_cost cost operand) }
{
    match Box::new(alloc, NegatedPlan { operand }) {
        Ok(plan) => Ok(OperatorPlan::Negated(plan)),
        Err(failed) => {
            drop(failed);
            Err(Memory)
        }
    }
}

pub(crate) fn filtered_plan(
    alloc: Global,
    operand: OperatorPlan,
    kind: Filter,
) -> Result<OperatorPlan, Memory>
    ensures same { IfOk result (λ plan. (text : LookedText) → operator_at text plan ≡ through_filter (operator_at text operand) kind) }
    ensures cost { IfOk result (λ plan. (cost : ItemTest → ℕ) → operator_cost cost plan ≡ operator_cost cost operand) }
    ensures cheap { IfOk result (λ plan. is_cheap_operator plan ≡ (is_cheap_filter kind && is_some (last_word operand))) }
{
    match Box::new(alloc, FilteredPlan { operand, kind }) {
        Ok(plan) => Ok(OperatorPlan::Filtered(plan)),
        Err(failed) => {
            drop(failed);
            Err(Memory)
        }
    }
}
