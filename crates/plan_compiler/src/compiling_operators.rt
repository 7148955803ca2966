//! Selections with filters and `not in`, compiled.

ghost use Rattle.std.specs.Prelude.{◌≡◌, true, IfOk, IsTrue};
ghost use Rattle.ft_base.specs.Selection.{words};
ghost use Rattle.ft_syntax.specs.View.{form};
ghost use Rattle.all_matches.specs.Allowed.{may_be_filtered};
ghost use Rattle.plan_compiler.specs.ChosenOptions.{options_of};
ghost use Rattle.plan_compiler.specs.CompiledOperators.{CompilesTo, EachCompilesTo, is_positional};
ghost use Rattle.plan_compiler.specs.CompiledSelection.{Compiles};
ghost use Rattle.plan_compiler.specs.Served.{are_served, is_served};

use crate::chosen::{Chosen, inside};
use crate::compiling_phrases::value_operator;
use crate::joining::{Join, filtered_plan, join_operands, mild_not_plan, negated_plan};
use crate::lists::Lists;
use crate::looks::Looks;
use crate::node::Node;
use crate::operator_plan::{OperatorPlan, WaysPlan};
use crate::uniting::unite_choices;
use ft_base::{Items, Memory, Words};
use ft_syntax::{Selection, Selections};
use std::alloc::Global;
use std::mem::drop;

/// The compiled form of a selection with filters or `not in`, under the options that stand round it.
pub(crate) fn compile_ways(
    alloc: Global,
    lists: &Lists,
    looks: Looks,
    chosen: &Chosen<'_>,
    selection: &Selection,
) -> Result<Node, Memory>
    requires positional { is_positional (form selection.now) ≡ true }
    requires allowed { may_be_filtered (form selection.now) ≡ true }
    requires options { IsTrue (are_served looks (options_of chosen.now)) }
    requires selection { IsTrue (is_served looks (form selection.now)) }
    ensures { IfOk result (λ node. Compiles looks lists.now (options_of chosen.now) node (form selection.now)) }
{
    let mut next = 1;
    let operator = compile_operator(alloc, lists, chosen, selection, &mut next)?;
    let operator = unite_choices(alloc, operator)?;
    Ok(Node::Ways(WaysPlan { operator }))
}

/// The operator of a selection under the options that stand round it, its phrases being numbered from `next` on.
#[cycle(operator)]
pub(crate) fn compile_operator(
    alloc: Global,
    lists: &Lists,
    chosen: &Chosen<'_>,
    selection: &Selection,
    next: &mut u32,
) -> Result<OperatorPlan, Memory>
    ensures { IfOk result (λ plan. CompilesTo lists.now (options_of chosen.now) next.old next.new plan (form selection.now)) }
{
    match selection {
        Selection::Words(words) => words_operator(alloc, lists, chosen, words, next),
        Selection::Or(parts) => {
            let operands = compile_operands(alloc, lists, chosen, parts, next)?;
            let plan = join_operands(alloc, Join::Choice, operands)?;
            Ok(plan)
        }
        Selection::And(parts) => {
            let operands = compile_operands(alloc, lists, chosen, parts, next)?;
            let plan = join_operands(alloc, Join::Both, operands)?;
            Ok(plan)
        }
        Selection::MildNot(left, right) => {
            let left = compile_operator(alloc, lists, chosen, left, next)?;
            match compile_operator(alloc, lists, chosen, right, next) {
                Ok(right) => {
                    let plan = mild_not_plan(alloc, left, right)?;
                    Ok(plan)
                }
                Err(memory) => {
                    drop(left);
                    Err(memory)
                }
            }
        }
        Selection::Not(operand) => {
            let operand = compile_operator(alloc, lists, chosen, operand, next)?;
            let plan = negated_plan(alloc, operand)?;
            Ok(plan)
        }
        Selection::Filtered(operand, filter) => {
            let operand = compile_operator(alloc, lists, chosen, operand, next)?;
            let plan = filtered_plan(alloc, operand, *filter)?;
            Ok(plan)
        }
        Selection::With(operand, options) => {
            let inner = inside(options, &*chosen);
            let plan = compile_operator(alloc, lists, &inner, operand, next)?;
            Ok(plan)
        }
    }
}

#[cycle(operator)]
fn compile_operands(
    alloc: Global,
    lists: &Lists,
    chosen: &Chosen<'_>,
    parts: &Selections,
    next: &mut u32,
) -> Result<Items<OperatorPlan>, Memory>
    ensures { IfOk result (λ plans. EachCompilesTo lists.now (options_of chosen.now) next.old next.new plans parts.now) }
{
    let mut plans = Items::new(alloc);
    for part in parts.as_slice() {
        plans.push(compile_operator(alloc, lists, chosen, part, next)?)?;
    }
    Ok(plans)
}

/// The operator of words under the options that stand round them.
pub(crate) fn words_operator(
    alloc: Global,
    lists: &Lists,
    chosen: &Chosen<'_>,
    value: &Words,
    next: &mut u32,
) -> Result<OperatorPlan, Memory>
    ensures { IfOk result (λ plan. CompilesTo lists.now (options_of chosen.now) next.old next.new plan (words value.now)) }
{
    let chosen = inside(&value.options, chosen);
    value_operator(alloc, lists, &chosen, value, next)
}
