//! One step of the reader, from wherever it stands.

ghost use Rattle.ft_parser.specs.steps.State.{Answers, state_of};
ghost use Rattle.ft_parser.specs.steps.Turns as turns;

use crate::operand_turns::{in_braces, wanted};
use crate::option_turns::{given, stop_terms, thesaurus, with_filter};
use crate::state::{Context, Halt, Reader, Stage, State};
use crate::stop_turns::stop_strings;
use crate::thesaurus_turns::{thesauri_in, thesaurus_in};
use crate::value_turns::{all_of, any_of, moded, valued};

/// Reads one construct, from between two of them.
#[tactic(auto, unfolding(crate::specs::steps::Turns::state_turn))]
pub(crate) fn turn(reader: Reader<'_>, next: usize, state: State) -> Result<(State, usize), Halt>
    ensures { Answers state_of result (turns.state_turn (state_of state) reader.entry.symbols.now next) }
{
    let State { context, stage } = state;
    match stage {
        Stage::Wanted(n) => wanted(reader, next, context, n),
        Stage::InBraces(n, strings) => in_braces(reader, next, context, n, strings),
        Stage::Valued(n, strings) => valued(reader, next, context, n, strings),
        Stage::AnyOf(n, strings) => any_of(reader, next, context, n, strings),
        Stage::AllOf(n, strings) => all_of(reader, next, context, n, strings),
        Stage::Moded(n, strings, mode) => moded(reader, next, context, n, strings, mode),
        Stage::Given(operand) => given(reader, next, context, operand),
        Stage::StopTerms(stops) => stop_terms(reader, next, context, stops),
        Stage::StopStrings(stops, except, strings) => {
            stop_strings(reader, next, context, stops, except, strings)
        }
        Stage::Thesaurus(last) => thesaurus(reader, next, context, last),
        Stage::ThesaurusIn(last, uses) => { thesaurus_in(reader, next, context, last, uses) }
        Stage::ThesauriIn(operand, at, uses) => {
            thesauri_in(reader, next, context, operand, at, uses)
        }
        Stage::WithFilter(parsed) => {
            let Context { outer, left } = context;
            drop(left);
            with_filter(reader, next, outer, parsed)
        }
    }
}
