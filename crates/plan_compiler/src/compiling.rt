//! Selections compiled.

ghost use Rattle.std.specs.Prelude.{IfOk, IsTrue, map};
ghost use Rattle.ft_syntax.specs.View.{form, forms_of};
ghost use Rattle.ft_base.specs.Selection.{words};
ghost use Rattle.counted_shapes.specs.Accepted.{each_is_accepted, is_accepted};
ghost use Rattle.plan_compiler.specs.ChosenOptions.{options_of};
ghost use Rattle.plan_compiler.specs.CompiledSelection.{CompileAll, Compiles};
ghost use Rattle.plan_compiler.specs.Served.{all_served, are_served, is_served};

use crate::chosen::{Chosen, inside};
use crate::compiling_counts::compile_counted;
use crate::compiling_operators::compile_ways;
use crate::compiling_words::compile_words;
use crate::lists::Lists;
use crate::looks::Looks;
use crate::node::Node;
use crate::times::without_times;
use ft_base::{Items, Memory, Words};
use ft_syntax::{Selection, Selections};
use std::alloc::Global;

/// The compiled form of a selection under the options that stand round it: it says of every text whether the text satisfies the
/// selection, by what is looked at of its words, and its tests have together at most the price of the selection.
#[cycle(compile)]
pub(crate) fn compile(
    alloc: Global,
    lists: &Lists,
    looks: Looks,
    chosen: &Chosen<'_>,
    selection: &Selection,
) -> Result<Node, Memory>
    requires options { IsTrue (are_served looks (options_of chosen.now)) }
    requires selection { IsTrue (is_served looks (form selection.now)) }
    requires accepted { IsTrue (is_accepted (form selection.now)) }
    ensures { IfOk result (λ node. Compiles looks lists.now (options_of chosen.now) node (form selection.now)) }
{
    match selection {
        Selection::Words(words) => compile_value(alloc, lists, looks, chosen, words),
        Selection::Or(parts) => Ok(Node::Or(compile_all(alloc, lists, looks, chosen, parts)?)),
        Selection::And(parts) => Ok(Node::And(compile_all(alloc, lists, looks, chosen, parts)?)),
        Selection::MildNot(_left, _right) => compile_ways(alloc, lists, looks, chosen, selection),
        Selection::Not(operand) => Ok(Node::Not(compile_boxed(
            alloc, lists, looks, chosen, operand,
        )?)),
        Selection::Filtered(operand, filter) => {
            if without_times(operand) {
                compile_ways(alloc, lists, looks, chosen, selection)
            } else {
                compile_counted(alloc, lists, looks, chosen, operand, *filter)
            }
        }
        Selection::With(operand, options) => {
            compile(alloc, lists, looks, &inside(options, chosen), operand)
        }
    }
}

#[cycle(compile)]
fn compile_boxed(
    alloc: Global,
    lists: &Lists,
    looks: Looks,
    chosen: &Chosen<'_>,
    operand: &Box<Selection>,
) -> Result<Box<Node>, Memory>
    requires options { IsTrue (are_served looks (options_of chosen.now)) }
    requires selection { IsTrue (is_served looks (form operand.now.value)) }
    requires accepted { IsTrue (is_accepted (form operand.now.value)) }
    ensures { IfOk result (λ node. Compiles looks lists.now (options_of chosen.now) node.value (form operand.now.value)) }
{
    let node = compile(alloc, lists, looks, chosen, operand)?;
    Ok(Box::new(alloc, node)?)
}

#[cycle(compile)]
fn compile_all(
    alloc: Global,
    lists: &Lists,
    looks: Looks,
    chosen: &Chosen<'_>,
    parts: &Selections,
) -> Result<Items<Node>, Memory>
    requires options { IsTrue (are_served looks (options_of chosen.now)) }
    requires selections { IsTrue (all_served looks (forms_of (map form parts.now))) }
    requires accepted { IsTrue (each_is_accepted (forms_of (map form parts.now))) }
    ensures { IfOk result (λ nodes. CompileAll looks lists.now (options_of chosen.now) nodes parts.now) }
{
    let mut nodes = Items::new(alloc);
    for part in parts.as_slice() {
        nodes.push(compile(alloc, lists, looks, chosen, part)?)?;
    }
    Ok(nodes)
}

/// The compiled form of words.
fn compile_value(
    alloc: Global,
    lists: &Lists,
    looks: Looks,
    chosen: &Chosen<'_>,
    value: &Words,
) -> Result<Node, Memory>
    requires options { IsTrue (are_served looks (options_of chosen.now)) }
    requires inner { IsTrue (are_served looks value.now.options) }
    ensures { IfOk result (λ node. Compiles looks lists.now (options_of chosen.now) node (words value.now)) }
{
    let chosen = inside(&value.options, chosen);
    Ok(Node::Words(compile_words(alloc, lists, value, &chosen)?))
}
