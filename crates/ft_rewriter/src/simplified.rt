//! `ftnot` moved inwards.
#![tactic(auto, using(crate::proofs::Views::views), unfolding(crate::specs::Rewriting::simplified))]

ghost use Rattle.std.specs.Prelude.{◌≡◌, IfOk, map};
ghost use Rattle.ft_base.specs.Selection.{not_of, with_options};
ghost use Rattle.ft_rewriter.specs.Rewriting as spec;
ghost use Rattle.ft_rewriter.specs.Rewriting.{each_negated, each_simplified};
ghost use Rattle.ft_syntax.specs.View.{form, forms_of};

use crate::connected::connected;
use crate::connective::Connective;
use crate::flattened::flattened;
use ft_base::{Items, Memory, Options, Range, Words};
use ft_syntax::{Selection, Selections, copy_options, copy_words};
use std::alloc::Global;

/// `occurs at least 1 times` says nothing.
fn shorter_times(times: Option<Range>) -> Option<Range>
    ensures { result ≡ spec.shorter_times times }
{
    match times {
        Some(Range::AtLeast(number)) => {
            if number == 1 {
                None
            } else {
                Some(Range::AtLeast(number))
            }
        }
        times => times,
    }
}

fn shorter_words(alloc: Global, words: &Words) -> Result<Words, Memory>
    ensures { IfOk result (λ shorter. shorter ≡ spec.shorter_words words.now) }
{
    let words = copy_words(alloc, words)?;
    Ok(Words {
        times: shorter_times(words.times),
        ..words
    })
}

fn negation(alloc: Global, operand: Selection) -> Result<Selection, Memory>
    ensures { IfOk result (λ negation. form negation ≡ not_of (form operand)) }
{
    Ok(Selection::Not(Box::new(alloc, operand)?))
}

/// A copy of a selection with `ftnot` moved inwards, and the operands of `ftor` and `ftand` joined.
#[cycle(simplifying)]
pub(crate) fn simplified(alloc: Global, selection: &Selection) -> Result<Selection, Memory>
    ensures { IfOk result (λ simple. form simple ≡ spec.simplified (form selection.now)) }
{
    match selection {
        Selection::Words(words) => Ok(Selection::Words(shorter_words(alloc, words)?)),
        Selection::Or(parts) => connected(alloc, Connective::Or, all_simplified(alloc, parts)?),
        Selection::And(parts) => connected(alloc, Connective::And, all_simplified(alloc, parts)?),
        Selection::MildNot(..) => flattened(alloc, selection),
        Selection::Not(operand) => negated(alloc, operand),
        Selection::Filtered(..) => flattened(alloc, selection),
        Selection::With(operand, options) => simplified_with(alloc, operand, options),
    }
}

/// The negation of a selection, with `ftnot` moved inwards.
#[cycle(simplifying)]
fn negated(alloc: Global, selection: &Selection) -> Result<Selection, Memory>
    ensures { IfOk result (λ negation. form negation ≡ spec.negated (form selection.now)) }
{
    match selection {
        Selection::Words(words) => negation(alloc, Selection::Words(shorter_words(alloc, words)?)),
        Selection::Or(parts) => connected(alloc, Connective::And, all_negated(alloc, parts)?),
        Selection::And(parts) => connected(alloc, Connective::Or, all_negated(alloc, parts)?),
        Selection::MildNot(..) => negation(alloc, flattened(alloc, selection)?),
        Selection::Not(operand) => simplified(alloc, operand),
        Selection::Filtered(..) => negation(alloc, flattened(alloc, selection)?),
        Selection::With(operand, options) => {
            negation(alloc, simplified_with(alloc, operand, options)?)
        }
    }
}

#[cycle(simplifying)]
fn simplified_with(
    alloc: Global,
    operand: &Box<Selection>,
    options: &Options,
) -> Result<Selection, Memory>
    ensures { IfOk result (λ simple. form simple ≡ with_options (spec.simplified (form operand.now.value)) options.now) }
{
    Ok(Selection::With(
        boxed_simplified(alloc, operand)?,
        copy_options(alloc, options)?,
    ))
}

#[cycle(simplifying)]
fn boxed_simplified(alloc: Global, operand: &Box<Selection>) -> Result<Box<Selection>, Memory>
    ensures { IfOk result (λ simple. form simple.value ≡ spec.simplified (form operand.now.value)) }
{
    let simple = simplified(alloc, operand)?;
    Ok(Box::new(alloc, simple)?)
}

#[cycle(simplifying)]
fn all_simplified(alloc: Global, parts: &Selections) -> Result<Selections, Memory>
    ensures { IfOk result (λ all. map form all ≡ each_simplified (forms_of (map form parts.now))) }
{
    let mut all = Items::new(alloc);
    for part in parts.as_slice() {
        all.push(simplified(alloc, part)?)?;
    }
    Ok(all)
}

#[cycle(simplifying)]
fn all_negated(alloc: Global, parts: &Selections) -> Result<Selections, Memory>
    ensures { IfOk result (λ all. map form all ≡ each_negated (forms_of (map form parts.now))) }
{
    let mut all = Items::new(alloc);
    for part in parts.as_slice() {
        all.push(negated(alloc, part)?)?;
    }
    Ok(all)
}
