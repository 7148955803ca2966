//! Operands joined by `ftor` or `ftand`.
#![tactic(auto, using(crate::proofs::Views::views))]

ghost use Rattle.std.specs.Prelude.{◌≡◌, ◌++◌, IfOk, OnOk, bytes_eq, flat_map, map};
ghost use Rattle.std.specs.List.{list_any};
ghost use Rattle.ft_rewriter.specs.Code.{form_numbers};
ghost use Rattle.ft_rewriter.specs.Rewriting as spec;
ghost use Rattle.ft_rewriter.specs.Rewriting.{operands_in, with_operand};
ghost use Rattle.ft_rewriter.specs.declared.connective.Connective.TheVariants as C;
ghost use Rattle.ft_syntax.specs.View.{form, forms_of};

use crate::connective::Connective;
use crate::equal::numbers_of;
use ft_base::{Items, Memory};
use ft_syntax::{Selection, Selections};
use std::alloc::Global;

fn put_or_operands(out: &mut Selections, part: Selection) -> Result<(), Memory>
    ensures { OnOk result (map form out.new ≡ map form out.old ++ operands_in C.Or (form part)) }
{
    match part {
        Selection::Or(operands) => out.append(operands),
        operand => out.push(operand),
    }
}

fn put_and_operands(out: &mut Selections, part: Selection) -> Result<(), Memory>
    ensures { OnOk result (map form out.new ≡ map form out.old ++ operands_in C.And (form part)) }
{
    match part {
        Selection::And(operands) => out.append(operands),
        operand => out.push(operand),
    }
}

/// Puts a selection to the operands of an Or or an And: its own operands if it is one, else itself.
pub(crate) fn put_operands(
    out: &mut Selections,
    connective: Connective,
    part: Selection,
) -> Result<(), Memory>
    ensures { OnOk result (map form out.new ≡ map form out.old ++ operands_in connective (form part)) }
{
    match connective {
        Connective::Or => put_or_operands(out, part),
        Connective::And => put_and_operands(out, part),
    }
}

fn all_operands(
    alloc: Global,
    connective: Connective,
    parts: Selections,
) -> Result<Selections, Memory>
    ensures { IfOk result (λ operands. map form operands ≡ flat_map (operands_in connective) (map form parts)) }
{
    let mut operands = Items::new(alloc);
    for part in parts.into_vec() {
        put_operands(&mut operands, connective, part)?;
    }
    Ok(operands)
}

/// Whether some selection has these numbers.
fn is_among(codes: &Items<Items<u32>>, code: &[u32]) -> bool
    ensures { result ≡ list_any (bytes_eq code.now) codes.now }
{
    for other in codes.as_slice() {
        if code == other.as_slice() {
            return true;
        }
    }
    false
}

/// Puts an operand to the others, unless it equals one of them. The numbers of each stand beside it.
fn put_operand(
    alloc: Global,
    kept: &mut Selections,
    codes: &mut Items<Items<u32>>,
    part: Selection,
) -> Result<(), Memory>
    requires { codes.old ≡ map form_numbers (map form kept.old) }
    ensures kept { OnOk result (map form kept.new ≡ with_operand (map form kept.old) (form part)) }
    ensures codes { OnOk result (codes.new ≡ map form_numbers (map form kept.new)) }
{
    match numbers_of(alloc, &part) {
        Ok(code) => {
            if is_among(codes, code.as_slice()) {
                std::mem::drop(part);
                return Ok(());
            }
            kept.push(part)?;
            codes.push(code)
        }
        Err(fault) => {
            std::mem::drop(part);
            Err(fault)
        }
    }
}

/// The operands, each once. Each is compared with those before it: a selection has few, since it has at most 64 phrases, and the numbers by which
/// they are compared are made once.
fn without_repeats(alloc: Global, operands: Selections) -> Result<Selections, Memory>
    ensures { IfOk result (λ kept. map form kept ≡ spec.without_repeats (map form operands)) }
{
    let mut kept = Items::new(alloc);
    let mut codes = Items::new(alloc);
    for operand in operands.into_vec() {
        put_operand(alloc, &mut kept, &mut codes, operand)?;
    }
    Ok(kept)
}

fn joined(connective: Connective, operands: Selections) -> Selection
    ensures { form result ≡ spec.joined connective (forms_of (map form operands)) }
{
    match connective {
        Connective::Or => Selection::Or(operands),
        Connective::And => Selection::And(operands),
    }
}

fn joined_operands(connective: Connective, operands: Selections) -> Selection
    ensures { form result ≡ spec.joined_operands connective (map form operands) }
{
    if operands.len() != 1 {
        return joined(connective, operands);
    }
    let mut operands = operands.into_vec();
    match operands.pop() {
        Some(operand) => operand,
        None => joined(connective, Items::from_vec(operands)),
    }
}

/// Selections joined: those of the same kind give their operands in their place, none stands twice, and a single one is left by itself.
pub(crate) fn connected(
    alloc: Global,
    connective: Connective,
    parts: Selections,
) -> Result<Selection, Memory>
    ensures { IfOk result (λ joined. form joined ≡ spec.connected connective (map form parts)) }
{
    let operands = all_operands(alloc, connective, parts)?;
    let kept = without_repeats(alloc, operands)?;
    Ok(joined_operands(connective, kept))
}
