//! Selections compiled to show their best hits: from the selections as they were read, since others that the same texts satisfy may have
//! other best hits.

ghost use Rattle.std.specs.Prelude.{◌≡◌, List, true, IfOk, IsTrue, map};
ghost use Rattle.ft_base.specs.declared.token.Token.{Token};
ghost use Rattle.ft_base.specs.Selection.{no_options, words};
ghost use Rattle.ft_syntax.specs.View.{form, forms_of};
ghost use Rattle.all_matches.specs.Allowed.{may_be_filtered};
ghost use Rattle.best_hits.specs.Best.{best, spans_of};
ghost use Rattle.best_hits.specs.Showable.{can_show, each_can_show_in};
ghost use Rattle.counted_shapes.specs.Accepted.{each_is_accepted, is_accepted};
ghost use Rattle.plan_compiler.specs.ChosenOptions.{options_of};
ghost use Rattle.plan_compiler.specs.CompiledOperators.{is_positional};
ghost use Rattle.plan_compiler.specs.CompiledShown.{ShowAll, ShowParts, Shows, ShowsPart};
ghost use Rattle.plan_compiler.specs.Lexicon.{lexicon};
ghost use Rattle.plan_compiler.specs.Operators.{looked_text};
ghost use Rattle.plan_compiler.specs.PlanMeaning.{plan_form, plan_lists};
ghost use Rattle.plan_compiler.specs.Served.{all_served, are_served, is_served};
ghost use Rattle.plan_compiler.specs.ShownMeaning.{shown_spans};

use crate::chosen::{Chosen, inside, none_chosen};
use crate::compiling::compile;
use crate::compiling_operators::{compile_operator, words_operator};
use crate::lists::Lists;
use crate::looks::Looks;
use crate::operator_plan::WaysPlan;
use crate::plan::{Plan, looks_of};
use crate::shown_plan::{FirstWays, ShownNode, ShownPart, ShownPlan};
use crate::times::least_times;
use ft_base::{Items, Memory, Words};
use ft_syntax::{Selection, Selections};
use std::alloc::Global;
use std::mem::drop;

/// What shows the best hits of the selection of a plan: over each text their places, in the order of the hits.
pub fn compile_shown(alloc: Global, plan: &Plan) -> Result<ShownPlan, Memory>
    requires { can_show (plan_form plan.now) ≡ true }
    ensures { IfOk result (λ shown. (tokens : List Token)
        → shown_spans (looked_text shown.looks (plan_lists plan.now).stems tokens) shown.root
        ≡ spans_of (best (lexicon (plan_lists plan.now)) no_options 1 tokens (plan_form plan.now))) }
{
    let selection = plan.selection();
    let looks = looks_of(selection);
    let root = shown_node(alloc, &plan.lists, looks, &none_chosen(), selection)?;
    Ok(ShownPlan { looks, root })
}

/// What shows the best hits of a selection under the options that stand round it.
#[cycle(show)]
fn shown_node(
    alloc: Global,
    lists: &Lists,
    looks: Looks,
    chosen: &Chosen<'_>,
    selection: &Selection,
) -> Result<ShownNode, Memory>
    requires options { IsTrue (are_served looks (options_of chosen.now)) }
    requires selection { IsTrue (is_served looks (form selection.now)) }
    requires accepted { IsTrue (is_accepted (form selection.now)) }
    requires showable { can_show (form selection.now) ≡ true }
    ensures { IfOk result (λ node. Shows looks lists.now (options_of chosen.now) node (form selection.now)) }
{
    match selection {
        Selection::Words(words) => first_ways(alloc, lists, looks, chosen, words),
        Selection::Or(parts) => Ok(ShownNode::Or(shown_parts(alloc, lists, looks, chosen, parts)?)),
        Selection::And(parts) => Ok(ShownNode::And(shown_nodes(
            alloc, lists, looks, chosen, parts,
        )?)),
        Selection::MildNot(_left, _right) => least_ways(alloc, lists, looks, chosen, selection),
        Selection::Not(_operand) => Ok(ShownNode::Nothing),
        Selection::Filtered(_operand, _filter) => {
            least_ways(alloc, lists, looks, chosen, selection)
        }
        Selection::With(operand, options) => {
            shown_node(alloc, lists, looks, &inside(options, chosen), operand)
        }
    }
}

#[cycle(show)]
fn shown_nodes(
    alloc: Global,
    lists: &Lists,
    looks: Looks,
    chosen: &Chosen<'_>,
    parts: &Selections,
) -> Result<Items<ShownNode>, Memory>
    requires options { IsTrue (are_served looks (options_of chosen.now)) }
    requires selections { IsTrue (all_served looks (forms_of (map form parts.now))) }
    requires accepted { IsTrue (each_is_accepted (forms_of (map form parts.now))) }
    requires showable { each_can_show_in true true (forms_of (map form parts.now)) ≡ true }
    ensures { IfOk result (λ nodes. ShowAll looks lists.now (options_of chosen.now) nodes parts.now) }
{
    let mut nodes = Items::new(alloc);
    for part in parts.as_slice() {
        nodes.push(shown_node(alloc, lists, looks, chosen, part)?)?;
    }
    Ok(nodes)
}

#[cycle(show)]
fn shown_parts(
    alloc: Global,
    lists: &Lists,
    looks: Looks,
    chosen: &Chosen<'_>,
    parts: &Selections,
) -> Result<Items<ShownPart>, Memory>
    requires options { IsTrue (are_served looks (options_of chosen.now)) }
    requires selections { IsTrue (all_served looks (forms_of (map form parts.now))) }
    requires accepted { IsTrue (each_is_accepted (forms_of (map form parts.now))) }
    requires showable { each_can_show_in true true (forms_of (map form parts.now)) ≡ true }
    ensures { IfOk result (λ shown. ShowParts looks lists.now (options_of chosen.now) shown parts.now) }
{
    let mut shown = Items::new(alloc);
    for part in parts.as_slice() {
        shown.push(shown_part(alloc, lists, looks, chosen, part)?)?;
    }
    Ok(shown)
}

/// A part of a choice: whether a text satisfies it, and what is shown of it there.
#[cycle(show)]
fn shown_part(
    alloc: Global,
    lists: &Lists,
    looks: Looks,
    chosen: &Chosen<'_>,
    selection: &Selection,
) -> Result<ShownPart, Memory>
    requires options { IsTrue (are_served looks (options_of chosen.now)) }
    requires selection { IsTrue (is_served looks (form selection.now)) }
    requires accepted { IsTrue (is_accepted (form selection.now)) }
    requires showable { can_show (form selection.now) ≡ true }
    ensures { IfOk result (λ part. ShowsPart looks lists.now (options_of chosen.now) part (form selection.now)) }
{
    let node = compile(alloc, lists, looks, chosen, selection)?;
    match shown_node(alloc, lists, looks, chosen, selection) {
        Ok(shown) => Ok(ShownPart { node, shown }),
        Err(memory) => {
            drop(node);
            Err(memory)
        }
    }
}

/// Words: of their first ways as many as `occurs` asks for at least.
fn first_ways(
    alloc: Global,
    lists: &Lists,
    looks: Looks,
    chosen: &Chosen<'_>,
    value: &Words,
) -> Result<ShownNode, Memory>
    requires options { IsTrue (are_served looks (options_of chosen.now)) }
    requires inner { IsTrue (are_served looks value.now.options) }
    ensures { IfOk result (λ node. Shows looks lists.now (options_of chosen.now) node (words value.now)) }
{
    let mut next = 1;
    let operator = words_operator(alloc, lists, chosen, value, &mut next)?;
    Ok(ShownNode::First(FirstWays {
        ways: WaysPlan { operator },
        most: least_times(value.times),
    }))
}

/// A selection with filters or `not in`: the least of its clean ways.
fn least_ways(
    alloc: Global,
    lists: &Lists,
    looks: Looks,
    chosen: &Chosen<'_>,
    selection: &Selection,
) -> Result<ShownNode, Memory>
    requires positional { is_positional (form selection.now) ≡ true }
    requires allowed { may_be_filtered (form selection.now) ≡ true }
    requires options { IsTrue (are_served looks (options_of chosen.now)) }
    requires selection { IsTrue (is_served looks (form selection.now)) }
    ensures { IfOk result (λ node. Shows looks lists.now (options_of chosen.now) node (form selection.now)) }
{
    let mut next = 1;
    let operator = compile_operator(alloc, lists, chosen, selection, &mut next)?;
    Ok(ShownNode::Least(WaysPlan { operator }))
}
