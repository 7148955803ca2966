//! How selections are put together from what was read.
#![tactic(auto, using(
// the trees of words, of `ftor` and of `ftand`
selection_grammar::proofs::Views::tree_words, selection_grammar::proofs::Views::tree_or, selection_grammar::proofs::Views::tree_and,
// of `not in` and of `ftnot`
selection_grammar::proofs::Views::tree_mild, selection_grammar::proofs::Views::tree_not,
// of filters and of match options
selection_grammar::proofs::Views::tree_filtered, selection_grammar::proofs::Views::tree_with))]

ghost use Rattle.std.specs.Prelude.{◌≡◌, [], ◌∷◌, ◌++◌, IfOk, map, option_map};
ghost use Rattle.ft_parser.specs.steps.State.{left_of, primary_of};
ghost use Rattle.selection_grammar.specs.steps.Machine as m;
ghost use Rattle.selection_grammar.specs.Tree as t;
ghost use Rattle.selection_grammar.specs.View.{tree};

use crate::state::{Left, Operand, Primary};
use ft_base::{Filter, Items, Memory};
use selection_grammar::{Parsed, ParsedWords, PlacedOption};
use std::alloc::Global;

/// The words, or the selection in parentheses, with options.
fn optioned(alloc: Global, primary: Primary, options: Items<PlacedOption>) -> Result<Parsed, Memory>
    ensures { IfOk result (λ parsed. tree parsed ≡ t.optioned (primary_of primary) options) }
{
    match primary {
        Primary::Phrases(strings, mode, times) => Ok(Parsed::Words(ParsedWords {
            strings,
            mode,
            times,
            options,
        })),
        Primary::Inner(parsed) => with_options(alloc, parsed, options),
    }
}

fn with_options(
    alloc: Global,
    parsed: Parsed,
    options: Items<PlacedOption>,
) -> Result<Parsed, Memory>
    ensures { IfOk result (λ whole. tree whole ≡ t.optioned (t.inner (tree parsed)) options) }
{
    if options.is_empty() {
        return Ok(parsed);
    }
    Ok(Parsed::With(Box::new(alloc, parsed)?, options))
}

/// The whole operand.
pub(crate) fn operand_tree(alloc: Global, operand: Operand) -> Result<Parsed, Memory>
    ensures { IfOk result (λ parsed. tree parsed ≡ m.operand_of operand.negation (primary_of operand.primary) operand.options) }
{
    let parsed = optioned(alloc, operand.primary, operand.options)?;
    match operand.negation {
        None => Ok(parsed),
        Some(at) => Ok(Parsed::Not(at, Box::new(alloc, parsed)?)),
    }
}

/// What stands before `not in`, and an operand after it.
pub(crate) fn mild_with(
    alloc: Global,
    mild: Option<Parsed>,
    right: Parsed,
) -> Result<Parsed, Memory>
    ensures { IfOk result (λ parsed. tree parsed ≡ m.mild_with (option_map tree mild) (tree right)) }
{
    match mild {
        None => Ok(right),
        Some(left) => {
            let Ok(left) = Box::new(alloc, left) else {
                drop(right);
                return Err(Memory);
            };
            Ok(Parsed::MildNot(left, Box::new(alloc, right)?))
        }
    }
}

/// Selections with `ftand` between them.
pub(crate) fn and_with(ands: Vec<Parsed>, last: Parsed) -> Result<Parsed, Memory>
    ensures { IfOk result (λ parsed. tree parsed ≡ t.joined t.and_of (map tree ands.items ++ tree last ∷ [])) }
{
    if ands.is_empty() {
        return Ok(last);
    }
    let mut parts = ands;
    parts.push(last)?;
    Ok(Parsed::And(Items::from_vec(parts)))
}

/// Selections with `ftor` between them.
pub(crate) fn or_with(ors: Vec<Parsed>, last: Parsed) -> Result<Parsed, Memory>
    ensures { IfOk result (λ parsed. tree parsed ≡ t.joined t.or_of (map tree ors.items ++ tree last ∷ [])) }
{
    if ors.is_empty() {
        return Ok(last);
    }
    let mut parts = ors;
    parts.push(last)?;
    Ok(Parsed::Or(Items::from_vec(parts)))
}

/// The whole selection, with an operand to the right of what stands to the left.
pub(crate) fn selection_with(alloc: Global, left: Left, right: Parsed) -> Result<Parsed, Memory>
    ensures { IfOk result (λ parsed. tree parsed ≡ m.selection_with (left_of left) (tree right)) }
{
    let mild = mild_with(alloc, left.mild, right)?;
    let and = and_with(left.ands, mild)?;
    or_with(left.ors, and)
}

pub(crate) fn filtered(alloc: Global, parsed: Parsed, filter: Filter) -> Result<Parsed, Memory>
    ensures { IfOk result (λ whole. tree whole ≡ t.filtered (tree parsed) filter) }
{
    Ok(Parsed::Filtered(Box::new(alloc, parsed)?, filter))
}
