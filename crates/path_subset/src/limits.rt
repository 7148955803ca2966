//! The limits of numbers and of open brackets and parentheses, selections aside.
#![tactic(auto, using(crate::proofs::Frames::frames_counted))]

ghost use Rattle.std.specs.Prelude.{◌≡◌};
ghost use Rattle.path_grammar.specs.steps.Machine as m;
ghost use Rattle.path_subset.specs.Limits as spec;
ghost use Rattle.path_subset.specs.steps.State.{state_of};

use crate::state::State;
use ft_base::{MAX_NUMBER, MAX_OPEN, QueryFault};
use selection_grammar::{Placed, Symbol};

/// How many brackets and parentheses are open.
pub(crate) fn open_count(state: &State) -> usize
    ensures { result ≡ m.open_count (state_of state.now) }
{
    match state {
        State::AtRoot(_) => 0,
        State::Along(_, inner) => inner.frames.len(),
    }
}

/// Whether the symbol exceeds a limit where so many are open.
pub(crate) fn exceeds(depth: usize, symbol: &Symbol) -> bool
    ensures { result ≡ spec.exceeds depth symbol.now }
{
    match symbol {
        Symbol::OpenBracket => depth >= MAX_OPEN,
        Symbol::OpenParenthesis => depth >= MAX_OPEN,
        Symbol::Number(number) => *number > MAX_NUMBER,
        _ => false,
    }
}

/// The fault of a symbol that exceeds a limit.
pub(crate) fn limit_fault(placed: &Placed) -> QueryFault
    ensures { result ≡ spec.limit_fault placed.now }
{
    match &placed.symbol {
        Symbol::OpenBracket => QueryFault::Deep { at: placed.from },
        Symbol::OpenParenthesis => QueryFault::Deep { at: placed.from },
        _ => QueryFault::Number { at: placed.from },
    }
}
