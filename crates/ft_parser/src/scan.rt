//! Going through symbols once, one construct after the other.

ghost use Rattle.std.specs.Prelude.{◌≡◌, ◌≤◌, ◌-◌, drop, length, take};
ghost use Rattle.ft_parser.specs.Limits as limits;
ghost use Rattle.ft_parser.specs.steps.Scan as spec;
ghost use Rattle.ft_parser.specs.steps.State.{state_of};
ghost use Rattle.selection_grammar.specs.steps.Machine as m;

use crate::ending::ends_before;
use crate::filter_depth::begins_deep_filter;
use crate::finishing::finish;
use crate::heads::place_at;
use crate::limits::open_within;
use crate::operand_turns::nothing_left_of;
use crate::state::{Context, Halt, Reader, Stage, State};
use crate::turn::turn;
use ft_base::QueryFault;
use selection_grammar::{Parsed, Placed};
use std::alloc::Global;

/// How far symbols begin a selection.
#[derive(Drop)]
pub(crate) struct Scan {
    /// How many of them do.
    pub(crate) count: usize,
    /// How many parentheses are open after those.
    pub(crate) depth: usize,
    /// The selection that those are, if they are a whole one.
    pub(crate) whole: Option<Parsed>,
}

/// Reads symbols up to the first one that can't stand there, or gives the fault of the first one that exceeds a limit. It reads them once, and of
/// those after them the next one at most.
pub(crate) fn scan_symbols(alloc: Global, symbols: &[Placed]) -> Result<Scan, QueryFault>
    ensures { spec.Scans symbols.now result }
{
    let mut state = start(alloc);
    let mut next = 0;
    let mut depth = 0;
    while !ends_before(symbols, next, &state) {
        if begins_deep_filter(symbols, next, &state) {
            drop(state);
            let at = place_at(symbols, next);
            return Err(QueryFault::Deep { at });
        }
        match turn(Reader { alloc, symbols }, next, state) {
            Ok((there, end)) => match depth_after(symbols, next, end, depth) {
                Ok(count) => {
                    state = there;
                    next = end;
                    depth = count;
                }
                Err(fault) => {
                    drop(there);
                    return Err(fault);
                }
            },
            Err(Halt::Stuck(end)) => return stopped(symbols, next, end, depth),
            Err(Halt::Memory) => return Err(QueryFault::Memory),
        }
    }
    match finish(alloc, state) {
        Ok(whole) => Ok(Scan {
            count: next,
            depth,
            whole,
        }),
        Err(_) => Err(QueryFault::Memory),
    }
}

/// How many parentheses are open after the symbols from one number to another, or the fault of the first of them that exceeds a limit.
fn depth_after(
    symbols: &[Placed],
    next: usize,
    end: usize,
    depth: usize,
) -> Result<usize, QueryFault>
    requires further { next ≤ end }
    requires within { end ≤ length symbols.now }
    requires small { depth ≤ next }
    ensures { result ≡ limits.open_within depth (take (end - next) (drop next symbols.now)) }
{
    open_within(depth, &symbols[next..end])
}

/// The symbols before the one that can't stand there, which is inside a construct that begins with the symbol of the other number.
fn stopped(symbols: &[Placed], next: usize, end: usize, depth: usize) -> Result<Scan, QueryFault>
    requires further { next ≤ end }
    requires within { end ≤ length symbols.now }
    requires small { depth ≤ next }
    ensures { result ≡ spec.stopped end (limits.open_within depth (take (end - next) (drop next symbols.now))) }
{
    match depth_after(symbols, next, end, depth) {
        Ok(depth) => Ok(Scan {
            count: end,
            depth,
            whole: None,
        }),
        Err(fault) => Err(fault),
    }
}

/// Before the first symbol.
fn start(alloc: Global) -> State
    ensures { state_of result ≡ m.start }
{
    let context = Context {
        outer: Vec::new(alloc),
        left: nothing_left_of(alloc),
    };
    let stage = Stage::Wanted(None);
    State { context, stage }
}
