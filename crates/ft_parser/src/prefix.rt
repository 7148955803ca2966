//! Reading the selection with which a text or symbols begin.

ghost use Rattle.std.specs.Prelude.{◌≡◌, ◌≤◌, IfOk, IsCharBoundary, length, option_map};
ghost use Rattle.ft_parser.specs.Answer.{Answered};
ghost use Rattle.ft_parser.specs.Prefix as spec;
ghost use Rattle.ft_parser.specs.Prefix.{numbered_form};
ghost use Rattle.ft_parser.specs.steps.Scan.{read_alone};
ghost use Rattle.ft_syntax.specs.View.{form};
ghost use Rattle.selection_grammar.specs.View.{tree};

use crate::read::{faultless, read_to_end, rest};
use crate::scan::{Scan, scan_symbols};
use ft_base::QueryFault;
use ft_syntax::Selection;
use query_lexer::symbols_from;
use selection_grammar::{Parsed, Placed};
use std::alloc::Global;

/// Reads the selection with which a text begins at a byte place, at which a character starts or the text ends. It takes the longest run of symbols that
/// begins a selection, and gives the selection and the place after the last of these symbols; what stands after is left. A run that is no
/// whole selection has its first fault in it or directly after it. All places count bytes from the start of the text.
#[tactic(none)]
pub fn read_prefix(alloc: Global, text: &str, from: usize) -> Result<(Selection, usize), QueryFault>
    requires { IsCharBoundary text.now from }
    ensures { Answered numbered_form (spec.prefix_read from text.now) result }
{
    match symbols_from(alloc, text, from) {
        Ok(found) => {
            let placed = found.placed.as_slice();
            match read_run(alloc, placed, found.bad, text.len()) {
                Ok((selection, count)) => Ok((selection, place_after(from, &placed[..count]))),
                Err(fault) => Err(fault),
            }
        }
        Err(_) => Err(QueryFault::Memory),
    }
}

/// Reads the selection with which symbols begin, in a text of so many bytes that has a character after
/// them that begins no symbol, or none. It takes the longest run of them that begins a selection, and gives
/// the selection and the number of symbols in the run. It looks at the run and the symbol after it only.
#[tactic(none)]
pub fn read_run(
    alloc: Global,
    symbols: &[Placed],
    bad: Option<usize>,
    size: usize,
) -> Result<(Selection, usize), QueryFault>
    ensures value { Answered numbered_form (spec.run_read symbols.now bad size) result }
    ensures within { IfOk result (λ read. read.1 ≤ length symbols.now) }
{
    match scan_symbols(alloc, symbols) {
        Ok(scan) => {
            let Scan {
                count,
                depth,
                whole,
            } = scan;
            match read_alone(alloc, depth, rest(symbols, count), bad, size, whole) {
                Ok(selection) => Ok((selection, count)),
                Err(fault) => Err(fault),
            }
        }
        Err(fault) => Err(fault),
    }
}

/// The run by itself, before these symbols: they are its end only where it is no whole selection.
fn read_alone(
    alloc: Global,
    depth: usize,
    left: &[Placed],
    bad: Option<usize>,
    size: usize,
    whole: Option<Parsed>,
) -> Result<Selection, QueryFault>
    ensures { Answered form (read_alone depth left.now bad size (option_map tree whole)) result }
{
    match whole {
        Some(parsed) => faultless(alloc, parsed),
        None => read_to_end(alloc, depth, left, bad, size, None),
    }
}

/// The place after symbols that stand from a place on.
fn place_after(from: usize, symbols: &[Placed]) -> usize
    ensures { result ≡ spec.place_after from symbols.now }
{
    let mut place = from;
    for placed in symbols {
        place = placed.to;
    }
    place
}
