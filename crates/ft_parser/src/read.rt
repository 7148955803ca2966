//! Reading whole selections.

ghost use Rattle.std.specs.Prelude.{◌≡◌, ◌≤◌, drop, length, option_map};
ghost use Rattle.ft_parser.specs.Answer as spec;
ghost use Rattle.ft_parser.specs.Answer.{Answered, selection_read, symbols_read, symbols_with};
ghost use Rattle.ft_parser.specs.steps.Scan.{read_to_end};
ghost use Rattle.ft_syntax.specs.View.{form};
ghost use Rattle.selection_grammar.specs.View.{tree};
ghost use Rattle.selection_faults.specs.Faults.{fault_of};

use crate::limits::symbol_fault;
use crate::scan::{Scan, scan_symbols};
use ft_base::QueryFault;
use ft_syntax::Selection;
use query_lexer::symbols;
use selection_faults::{first_fault, selection_of};
use selection_grammar::{Parsed, Placed};
use std::alloc::Global;

/// Reads a text that is a selection.
#[tactic(auto, unfolding(crate::specs::Answer::selection_read))]
pub fn read_selection(alloc: Global, text: &str) -> Result<Selection, QueryFault>
    ensures { Answered form (selection_read text.now) result }
{
    match symbols(alloc, text) {
        Ok(found) => read_placed(alloc, found.placed.as_slice(), found.bad, text.len()),
        Err(_) => Err(QueryFault::Memory),
    }
}

/// Reads symbols in a text of so many bytes, which has a character after them that begins no symbol, or none.
fn read_placed(
    alloc: Global,
    placed: &[Placed],
    bad: Option<usize>,
    size: usize,
) -> Result<Selection, QueryFault>
    ensures { Answered form (symbols_read (symbols_with placed.now bad) size) result }
{
    match scan_symbols(alloc, placed) {
        Ok(scan) => {
            let Scan {
                count,
                depth,
                whole,
            } = scan;
            read_to_end(alloc, depth, rest(placed, count), bad, size, whole)
        }
        Err(fault) => Err(fault),
    }
}

/// The symbols from that number on.
pub(crate) fn rest(symbols: &[Placed], count: usize) -> &[Placed]
    requires { count ≤ length symbols.now }
    ensures { result.now ≡ drop count symbols.now }
{
    &symbols[count..]
}

/// After the run, before these symbols: none of them may be left.
pub(crate) fn read_to_end(
    alloc: Global,
    depth: usize,
    left: &[Placed],
    bad: Option<usize>,
    size: usize,
    whole: Option<Parsed>,
) -> Result<Selection, QueryFault>
    ensures { Answered form (read_to_end depth left.now bad size (option_map tree whole)) result }
{
    match left.first() {
        None => ended(alloc, bad, size, whole),
        Some(placed) => {
            drop(whole);
            Err(symbol_fault(depth, placed))
        }
    }
}

/// After all symbols: a character that begins none, or the end of the text.
fn ended(
    alloc: Global,
    bad: Option<usize>,
    size: usize,
    whole: Option<Parsed>,
) -> Result<Selection, QueryFault>
    ensures { Answered form (spec.ended bad size (option_map tree whole)) result }
{
    if let Some(at) = bad {
        drop(whole);
        return Err(QueryFault::Syntax { at });
    }
    match whole {
        None => Err(QueryFault::Syntax { at: size }),
        Some(parsed) => faultless(alloc, parsed),
    }
}

/// The selection, unless something is wrong with it.
pub(crate) fn faultless(alloc: Global, parsed: Parsed) -> Result<Selection, QueryFault>
    ensures { Answered form (spec.faultless (tree parsed) (fault_of (tree parsed))) result }
{
    match first_fault(alloc, &parsed) {
        Err(_) => {
            drop(parsed);
            Err(QueryFault::Memory)
        }
        Ok(Some(fault)) => {
            drop(parsed);
            Err(fault)
        }
        Ok(None) => match selection_of(alloc, parsed) {
            Ok(selection) => Ok(selection),
            Err(_) => Err(QueryFault::Memory),
        },
    }
}
