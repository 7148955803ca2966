//! The limits of numbers and of open parentheses.

ghost use Rattle.std.specs.Prelude.{◌≡◌, ◌<◌, ◌+◌, ◌^◌, length};
ghost use Rattle.ft_parser.specs.Limits as spec;

use ft_base::{MAX_NUMBER, MAX_OPEN, QueryFault};
use selection_grammar::{Placed, Symbol};

fn exceeds(depth: usize, symbol: &Symbol) -> bool
    ensures { result ≡ spec.exceeds depth symbol.now }
{
    match symbol {
        Symbol::Number(number) => *number > MAX_NUMBER,
        Symbol::OpenParenthesis => depth >= MAX_OPEN,
        _ => false,
    }
}

fn depth_after(depth: usize, symbol: &Symbol) -> usize
    requires { depth < 2 ^ 63 }
    ensures { result ≡ spec.depth_after depth symbol.now }
{
    match symbol {
        Symbol::OpenParenthesis => depth + 1,
        Symbol::CloseParenthesis => depth.saturating_sub(1),
        _ => depth,
    }
}

/// How many parentheses are open after symbols where so many are open before them, or the fault of the first of them that exceeds a limit.
pub(crate) fn open_within(depth: usize, symbols: &[Placed]) -> Result<usize, QueryFault>
    requires { depth + length symbols.now < 2 ^ 63 }
    ensures { result ≡ spec.open_within depth symbols.now }
{
    let mut count = depth;
    for placed in symbols {
        if exceeds(count, &placed.symbol) {
            return Err(limit_fault(placed));
        }
        count = depth_after(count, &placed.symbol);
    }
    Ok(count)
}

/// The fault of a symbol that can't stand where so many parentheses are open: a limit that it exceeds counts first.
pub(crate) fn symbol_fault(depth: usize, placed: &Placed) -> QueryFault
    ensures { result ≡ spec.symbol_fault depth placed.now }
{
    if exceeds(depth, &placed.symbol) {
        return limit_fault(placed);
    }
    QueryFault::Syntax { at: placed.from }
}

/// The fault of a symbol that exceeds a limit.
fn limit_fault(placed: &Placed) -> QueryFault
    ensures { result ≡ spec.limit_fault placed.now }
{
    match &placed.symbol {
        Symbol::OpenParenthesis => QueryFault::Deep { at: placed.from },
        _ => QueryFault::Number { at: placed.from },
    }
}
