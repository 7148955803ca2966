//! An Or inside an Or, and an And inside an And.
#![tactic(auto, using(crate::proofs::Views::views), unfolding(crate::specs::Rewriting::flattened))]

ghost use Rattle.std.specs.Prelude.{◌≡◌, IfOk, flat_map, map};
ghost use Rattle.ft_rewriter.specs.Rewriting as spec;
ghost use Rattle.ft_rewriter.specs.Rewriting.{each_flattened, operands_in};
ghost use Rattle.ft_syntax.specs.View.{form, forms_of};

use crate::connected::put_operands;
use crate::connective::Connective;
use ft_base::{Items, Memory};
use ft_syntax::{Selection, Selections, copy_options, copy_words};
use std::alloc::Global;

/// A copy of a selection in which an Or inside an Or, and an And inside an And, gave its operands in its place.
#[cycle(flattening)]
pub(crate) fn flattened(alloc: Global, selection: &Selection) -> Result<Selection, Memory>
    ensures { IfOk result (λ flat. form flat ≡ spec.flattened (form selection.now)) }
{
    match selection {
        Selection::Words(words) => Ok(Selection::Words(copy_words(alloc, words)?)),
        Selection::Or(parts) => Ok(Selection::Or(flat_operands(alloc, Connective::Or, parts)?)),
        Selection::And(parts) => Ok(Selection::And(flat_operands(alloc, Connective::And, parts)?)),
        Selection::MildNot(left, right) => Ok(Selection::MildNot(
            boxed_flat(alloc, left)?,
            boxed_flat(alloc, right)?,
        )),
        Selection::Not(operand) => Ok(Selection::Not(boxed_flat(alloc, operand)?)),
        Selection::Filtered(operand, filter) => Ok(Selection::Filtered(
            boxed_flat(alloc, operand)?,
            *filter,
        )),
        Selection::With(operand, options) => Ok(Selection::With(
            boxed_flat(alloc, operand)?,
            copy_options(alloc, options)?,
        )),
    }
}

#[cycle(flattening)]
fn boxed_flat(alloc: Global, operand: &Box<Selection>) -> Result<Box<Selection>, Memory>
    ensures { IfOk result (λ flat. form flat.value ≡ spec.flattened (form operand.now.value)) }
{
    let flat = flattened(alloc, operand)?;
    Ok(Box::new(alloc, flat)?)
}

#[cycle(flattening)]
fn flat_operands(
    alloc: Global,
    connective: Connective,
    parts: &Selections,
) -> Result<Selections, Memory>
    ensures { IfOk result (λ operands. map form operands ≡ flat_map (operands_in connective) (each_flattened (forms_of (map form parts.now)))) }
{
    let mut operands = Items::new(alloc);
    for part in parts.as_slice() {
        put_operands(&mut operands, connective, flattened(alloc, part)?)?;
    }
    Ok(operands)
}
