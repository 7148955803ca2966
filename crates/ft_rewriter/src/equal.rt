//! Whether two selections are equal as they are written.
#![tactic(auto, using(crate::proofs::Views::views), unfolding(crate::specs::Code::form_code))]

ghost use Rattle.std.specs.Prelude.{◌≡◌, ◌++◌, IfOk, OnOk, map};
ghost use Rattle.ft_rewriter.specs.Code.{form_code, form_numbers, forms_code, numbers};
ghost use Rattle.ft_syntax.specs.View.{form, forms_of};

use crate::numbers::{put_empty, put_filter, put_node};
use crate::option_numbers::{put_options, put_words};
use ft_base::{Items, Memory};
use ft_syntax::{Selection, Selections};
use std::alloc::Global;

#[cycle(numbers)]
fn put_selection(out: &mut Items<u32>, selection: &Selection) -> Result<(), Memory>
    ensures { OnOk result (out.new ≡ out.old ++ numbers (form_code (form selection.now))) }
{
    match selection {
        Selection::Words(words) => {
            put_node(out, 0)?;
            put_words(out, words)?;
            put_empty(out)
        }
        Selection::Or(parts) => {
            put_node(out, 1)?;
            put_selections(out, parts)?;
            put_empty(out)
        }
        Selection::And(parts) => {
            put_node(out, 2)?;
            put_selections(out, parts)?;
            put_empty(out)
        }
        Selection::MildNot(left, right) => {
            put_node(out, 3)?;
            put_boxed(out, left)?;
            put_boxed(out, right)
        }
        Selection::Not(operand) => {
            put_node(out, 4)?;
            put_boxed(out, operand)?;
            put_empty(out)
        }
        Selection::Filtered(operand, filter) => {
            put_node(out, 5)?;
            put_boxed(out, operand)?;
            put_filter(out, *filter)
        }
        Selection::With(operand, options) => {
            put_node(out, 6)?;
            put_boxed(out, operand)?;
            put_options(out, options)
        }
    }
}

#[cycle(numbers)]
fn put_boxed(out: &mut Items<u32>, operand: &Box<Selection>) -> Result<(), Memory>
    ensures { OnOk result (out.new ≡ out.old ++ numbers (form_code (form operand.now.value))) }
{
    put_selection(out, operand)
}

#[cycle(numbers)]
fn put_selections(out: &mut Items<u32>, parts: &Selections) -> Result<(), Memory>
    ensures { OnOk result (out.new ≡ out.old ++ numbers (forms_code (forms_of (map form parts.now)))) }
{
    for part in parts.as_slice() {
        put_node(out, 0)?;
        put_selection(out, part)?;
    }
    put_empty(out)
}

/// The numbers of a selection, which no other selection has.
pub fn numbers_of(alloc: Global, selection: &Selection) -> Result<Items<u32>, Memory>
    ensures { IfOk result (λ numbers. numbers ≡ form_numbers (form selection.now)) }
{
    let mut out = Items::new(alloc);
    put_selection(&mut out, selection)?;
    Ok(out)
}
