//! Steps of the reader after the value of words.

ghost use Rattle.ft_parser.specs.steps.State.{Answers, frames_of, left_of, state_of};
ghost use Rattle.ft_parser.specs.steps.Turns as turns;

use crate::heads::{is_word, place_at};
use crate::option_turns::given;
use crate::parts::times;
use crate::state::{Context, Halt, Operand, Primary, Reader, Stage, State};
use ft_base::{Items, Mode};
use selection_grammar::PlacedString;

/// After a value.
#[tactic(auto, unfolding(crate::specs::steps::Turns::valued_turn))]
pub(crate) fn valued(
    reader: Reader<'_>,
    next: usize,
    context: Context,
    negation: Option<usize>,
    strings: Items<PlacedString>,
) -> Result<(State, usize), Halt>
    ensures { Answers state_of result
        (turns.valued_turn (frames_of context.outer.items) (left_of context.left) negation strings reader.entry.symbols.now next) }
{
    if is_word(reader.symbols, next, "any") {
        let stage = Stage::AnyOf(negation, strings);
        Ok((State { context, stage }, next + 1))
    } else if is_word(reader.symbols, next, "all") {
        let stage = Stage::AllOf(negation, strings);
        Ok((State { context, stage }, next + 1))
    } else if is_word(reader.symbols, next, "phrase") {
        let stage = Stage::Moded(negation, strings, Mode::Phrase);
        Ok((State { context, stage }, next + 1))
    } else {
        moded(reader, next, context, negation, strings, Mode::Any)
    }
}

/// After a value and `any`.
#[tactic(auto, unfolding(crate::specs::steps::Turns::any_of_turn))]
pub(crate) fn any_of(
    reader: Reader<'_>,
    next: usize,
    context: Context,
    negation: Option<usize>,
    strings: Items<PlacedString>,
) -> Result<(State, usize), Halt>
    ensures { Answers state_of result
        (turns.any_of_turn (frames_of context.outer.items) (left_of context.left) negation strings reader.entry.symbols.now next) }
{
    if is_word(reader.symbols, next, "word") {
        let stage = Stage::Moded(negation, strings, Mode::AnyWord);
        Ok((State { context, stage }, next + 1))
    } else {
        moded(reader, next, context, negation, strings, Mode::Any)
    }
}

/// After a value and `all`.
#[tactic(auto, unfolding(crate::specs::steps::Turns::all_of_turn))]
pub(crate) fn all_of(
    reader: Reader<'_>,
    next: usize,
    context: Context,
    negation: Option<usize>,
    strings: Items<PlacedString>,
) -> Result<(State, usize), Halt>
    ensures { Answers state_of result
        (turns.all_of_turn (frames_of context.outer.items) (left_of context.left) negation strings reader.entry.symbols.now next) }
{
    if is_word(reader.symbols, next, "words") {
        let stage = Stage::Moded(negation, strings, Mode::AllWords);
        Ok((State { context, stage }, next + 1))
    } else {
        moded(reader, next, context, negation, strings, Mode::All)
    }
}

/// After a value and its mode.
#[tactic(auto, unfolding(crate::specs::steps::Turns::moded_turn))]
pub(crate) fn moded(
    reader: Reader<'_>,
    next: usize,
    context: Context,
    negation: Option<usize>,
    strings: Items<PlacedString>,
    mode: Mode,
) -> Result<(State, usize), Halt>
    ensures { Answers state_of result
        (turns.moded_turn (frames_of context.outer.items) (left_of context.left) negation strings mode reader.entry.symbols.now next) }
{
    if is_word(reader.symbols, next, "occurs") {
        let at = place_at(reader.symbols, next);
        match times(reader.symbols, next + 1, at) {
            Err(stuck) => {
                drop((context, strings));
                Err(Halt::Stuck(stuck))
            }
            Ok((times, end)) => {
                let stage = Stage::Given(Operand {
                    negation,
                    primary: Primary::Phrases(strings, mode, Some(times)),
                    options: Items::new(reader.alloc),
                });
                Ok((State { context, stage }, end))
            }
        }
    } else {
        let operand = Operand {
            negation,
            primary: Primary::Phrases(strings, mode, None),
            options: Items::new(reader.alloc),
        };
        given(reader, next, context, operand)
    }
}
