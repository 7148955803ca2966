//! The selection that was read, made of its parts.

ghost use Rattle.std.specs.Prelude.{◌≡◌, IfOk, map, option_map};
ghost use Rattle.ft_base.specs.Selection.{words as words_form};
ghost use Rattle.ft_syntax.specs.View.{form};
ghost use Rattle.selection_grammar.specs.Form.{form_of};
ghost use Rattle.selection_grammar.specs.Tree.{words as words_tree};
ghost use Rattle.selection_grammar.specs.View.{tree};

use crate::given::{options_of, texts_of};
use ft_base::{Items, Memory, Range};
use ft_syntax::{Selection, Selections, Words};
use selection_grammar::{Parsed, ParsedWords, PlacedTimes};
use std::alloc::Global;

/// The selection that was read, without its places.
#[cycle(make)]
pub fn selection_of(alloc: Global, parsed: Parsed) -> Result<Selection, Memory>
    ensures { IfOk result (λ selection. form selection ≡ form_of (tree parsed)) }
{
    match parsed {
        Parsed::Words(words) => Ok(Selection::Words(words_of(alloc, words)?)),
        Parsed::Or(parts) => Ok(Selection::Or(selections_of(alloc, parts)?)),
        Parsed::And(parts) => Ok(Selection::And(selections_of(alloc, parts)?)),
        Parsed::MildNot(left, right) => Ok(Selection::MildNot(
            boxed(alloc, left)?,
            boxed(alloc, right)?,
        )),
        Parsed::Not(_, operand) => Ok(Selection::Not(boxed(alloc, operand)?)),
        Parsed::Filtered(operand, filter) => {
            Ok(Selection::Filtered(boxed(alloc, operand)?, filter))
        }
        Parsed::With(operand, options) => Ok(Selection::With(
            boxed(alloc, operand)?,
            options_of(options),
        )),
    }
}

#[cycle(make)]
fn boxed(alloc: Global, operand: Box<Parsed>) -> Result<Box<Selection>, Memory>
    ensures { IfOk result (λ selection. form selection.value ≡ form_of (tree operand.value)) }
{
    let selection = selection_of(alloc, Box::into_inner(operand))?;
    Ok(Box::new(alloc, selection)?)
}

#[cycle(make)]
fn selections_of(alloc: Global, parts: Items<Parsed>) -> Result<Selections, Memory>
    ensures { IfOk result (λ selections. map form selections ≡ map form_of (map tree parts)) }
{
    let mut selections = Items::new(alloc);
    for part in parts.into_vec() {
        selections.push(selection_of(alloc, part)?)?;
    }
    Ok(selections)
}

fn words_of(alloc: Global, words: ParsedWords) -> Result<Words, Memory>
    ensures { IfOk result (λ w. words_form w ≡ form_of (words_tree words)) }
{
    Ok(Words {
        values: texts_of(alloc, words.strings)?,
        mode: words.mode,
        times: range_of(words.times),
        options: options_of(words.options),
    })
}

fn range_of(times: Option<PlacedTimes>) -> Option<Range>
    ensures { result ≡ option_map (λ t. t.range) times }
{
    match times {
        None => None,
        Some(times) => Some(times.range),
    }
}
