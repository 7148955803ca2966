ghost use Rattle.std.specs.Prelude.{◌≡◌, IfOk, map};
ghost use Rattle.ft_syntax.specs.View.{form};

use crate::Selections;
use crate::option_copying::{copy_options, copy_words};
use crate::selection::Selection;
use ft_base::{Items, Memory};
use std::alloc::Global;

/// A copy of a selection, which stands for the same plain data.
#[cycle(copy)]
pub fn copy_selection(alloc: Global, selection: &Selection) -> Result<Selection, Memory>
    ensures { IfOk result (λ copy. form copy ≡ form selection.now) }
{
    match selection {
        Selection::Words(words) => Ok(Selection::Words(copy_words(alloc, words)?)),
        Selection::Or(parts) => Ok(Selection::Or(copy_selections(alloc, parts)?)),
        Selection::And(parts) => Ok(Selection::And(copy_selections(alloc, parts)?)),
        Selection::MildNot(left, right) => Ok(Selection::MildNot(
            copy_boxed(alloc, left)?,
            copy_boxed(alloc, right)?,
        )),
        Selection::Not(operand) => Ok(Selection::Not(copy_boxed(alloc, operand)?)),
        Selection::Filtered(operand, filter) => Ok(Selection::Filtered(
            copy_boxed(alloc, operand)?,
            *filter,
        )),
        Selection::With(operand, options) => Ok(Selection::With(
            copy_boxed(alloc, operand)?,
            copy_options(alloc, options)?,
        )),
    }
}

#[cycle(copy)]
fn copy_boxed(alloc: Global, operand: &Box<Selection>) -> Result<Box<Selection>, Memory>
    ensures { IfOk result (λ copy. form copy.value ≡ form operand.now.value) }
{
    let copy = copy_selection(alloc, operand)?;
    Ok(Box::new(alloc, copy)?)
}

#[cycle(copy)]
fn copy_selections(alloc: Global, parts: &Selections) -> Result<Selections, Memory>
    ensures { IfOk result (λ copy. map form copy ≡ map form parts.now) }
{
    let mut copies = Items::new(alloc);
    for part in parts.as_slice() {
        copies.push(copy_selection(alloc, part)?)?;
    }
    Ok(copies)
}
