//! What stands at a place among symbols.

ghost use Rattle.std.specs.Prelude.{◌≡◌, ◌≤◌, ◌+◌, IsTrue, IfOk, IfSome, drop, length};
ghost use Rattle.selection_grammar.specs.steps.Reading.{first_is, first_is_mark, first_number, first_text, first_place};
ghost use Rattle.selection_grammar.specs.Shapes as shapes;

use crate::state::Reader;
use ft_base::{Line, Memory};
use selection_grammar::{Placed, Symbol};
use std::alloc::Global;

/// Whether the symbol of that number is this keyword.
pub(crate) fn is_word(symbols: &[Placed], number: usize, word: &str) -> bool
    ensures value { result ≡ first_is word.now (drop number symbols.now) }
    ensures within { IsTrue result → number + 1 ≤ length symbols.now }
{
    match symbols.get(number) {
        Some(placed) => is_name(&placed.symbol, word),
        None => false,
    }
}

fn is_name(symbol: &Symbol, word: &str) -> bool
    ensures { result ≡ shapes.is_word word.now symbol.now }
{
    match symbol {
        Symbol::Name(name) => name.as_str() == word,
        _ => false,
    }
}

/// The number there, if it is one.
pub(crate) fn number_at(symbols: &[Placed], number: usize) -> Option<u32>
    ensures value { result ≡ first_number (drop number symbols.now) }
    ensures within { IfSome result (λ n. number + 1 ≤ length symbols.now) }
{
    match symbols.get(number) {
        Some(placed) => number_in(&placed.symbol),
        None => None,
    }
}

fn number_in(symbol: &Symbol) -> Option<u32>
    ensures { result ≡ shapes.number_of symbol.now }
{
    match symbol {
        Symbol::Number(number) => Some(*number),
        _ => None,
    }
}

/// A copy of the string there, if it is one.
pub(crate) fn text_at(reader: Reader<'_>, number: usize) -> Result<Option<Line>, Memory>
    ensures value { IfOk result (λ text. text ≡ first_text (drop number reader.entry.symbols.now)) }
    ensures within { IfOk result (λ text. IfSome text (λ n. number + 1 ≤ length reader.entry.symbols.now)) }
{
    match reader.symbols.get(number) {
        Some(placed) => text_in(reader.alloc, &placed.symbol),
        None => Ok(None),
    }
}

fn text_in(alloc: Global, symbol: &Symbol) -> Result<Option<Line>, Memory>
    ensures { IfOk result (λ text. text ≡ shapes.text_of symbol.now) }
{
    match symbol {
        Symbol::Text(text) => Ok(Some(Line::read(alloc, text.as_str())?)),
        _ => Ok(None),
    }
}

/// The place of the symbol of that number.
pub(crate) fn place_at(symbols: &[Placed], number: usize) -> usize
    ensures { result ≡ first_place (drop number symbols.now) }
{
    match symbols.get(number) {
        Some(placed) => placed.from,
        None => 0,
    }
}

pub(crate) fn is_comma(symbols: &[Placed], number: usize) -> bool
    ensures value { result ≡ first_is_mark shapes.comma (drop number symbols.now) }
    ensures within { IsTrue result → number + 1 ≤ length symbols.now }
{
    match symbols.get(number) {
        Some(placed) => matches!(&placed.symbol, Symbol::Comma),
        None => false,
    }
}

pub(crate) fn opens_brace(symbols: &[Placed], number: usize) -> bool
    ensures value { result ≡ first_is_mark shapes.open_brace (drop number symbols.now) }
    ensures within { IsTrue result → number + 1 ≤ length symbols.now }
{
    match symbols.get(number) {
        Some(placed) => matches!(&placed.symbol, Symbol::OpenBrace),
        None => false,
    }
}

pub(crate) fn closes_brace(symbols: &[Placed], number: usize) -> bool
    ensures value { result ≡ first_is_mark shapes.close_brace (drop number symbols.now) }
    ensures within { IsTrue result → number + 1 ≤ length symbols.now }
{
    match symbols.get(number) {
        Some(placed) => matches!(&placed.symbol, Symbol::CloseBrace),
        None => false,
    }
}

pub(crate) fn opens_parenthesis(symbols: &[Placed], number: usize) -> bool
    ensures value { result ≡ first_is_mark shapes.open_parenthesis (drop number symbols.now) }
    ensures within { IsTrue result → number + 1 ≤ length symbols.now }
{
    match symbols.get(number) {
        Some(placed) => matches!(&placed.symbol, Symbol::OpenParenthesis),
        None => false,
    }
}

pub(crate) fn closes_parenthesis(symbols: &[Placed], number: usize) -> bool
    ensures value { result ≡ first_is_mark shapes.close_parenthesis (drop number symbols.now) }
    ensures within { IsTrue result → number + 1 ≤ length symbols.now }
{
    match symbols.get(number) {
        Some(placed) => matches!(&placed.symbol, Symbol::CloseParenthesis),
        None => false,
    }
}
