//! Steps of the reader after operands, at options and filters.

ghost use Rattle.std.specs.Prelude.{◌≡◌, [], ◌∷◌, ◌++◌, IfOk, Ok, codes, false};
ghost use Rattle.ft_parser.specs.steps.State.{Answers, frames_of, left_of, primary_of, state_of};
ghost use Rattle.ft_parser.specs.steps.Turns as turns;
ghost use Rattle.selection_grammar.specs.Keywords as keywords;
ghost use Rattle.selection_grammar.specs.steps.Machine as m;
ghost use Rattle.selection_grammar.specs.steps.Reading.{further, reading};
ghost use Rattle.selection_grammar.specs.View.{tree};

use crate::building::{filtered, operand_tree, selection_with};
use crate::heads::{is_word, place_at};
use crate::operand_turns::{close, joint, nothing_left_of};
use crate::parts::{
    begins_filter, begins_other_filter, begins_range_without_at, bound, filter, other_filter,
    range_without_at, side,
};
use crate::plain_option::plain_option;
use crate::state::{Context, Frame, Halt, Left, Operand, Reader, Stage, State, Stops, Uses};
use crate::stop_turns::term;
use crate::thesaurus_turns::{levels_outside, related, thesaurus_first, with_one_use};
use ft_base::{Filter, Items, Memory, Range, StopChoice};
use selection_grammar::{MatchOption, Parsed, PlacedOption};
use std::alloc::Global;

/// After a filter, which was read or not.
fn after_filter(
    alloc: Global,
    outer: Vec<Frame>,
    selection: Parsed,
    read: Result<(Filter, usize), usize>,
) -> Result<(State, usize), Halt>
    ensures { Answers state_of result (turns.filtered_turn (frames_of outer.items) (tree selection) read) }
{
    match read {
        Err(stuck) => {
            drop((outer, selection));
            Err(Halt::Stuck(stuck))
        }
        Ok((filter, end)) => {
            let state = filtered_state(alloc, outer, selection, filter)?;
            Ok((state, end))
        }
    }
}

fn filtered_state(
    alloc: Global,
    outer: Vec<Frame>,
    selection: Parsed,
    filter: Filter,
) -> Result<State, Memory>
    ensures { IfOk result (λ state. state_of state ≡ m.filtered_state (frames_of outer.items) (tree selection) filter) }
{
    let whole = filtered(alloc, selection, filter)?;
    let left = nothing_left_of(alloc);
    let context = Context { outer, left };
    let stage = Stage::WithFilter(whole);
    Ok(State { context, stage })
}

/// After a whole selection with a filter.
#[tactic(auto, unfolding(crate::specs::steps::Turns::with_filter_turn))]
pub(crate) fn with_filter(
    reader: Reader<'_>,
    next: usize,
    outer: Vec<Frame>,
    selection: Parsed,
) -> Result<(State, usize), Halt>
    ensures { Answers state_of result (turns.with_filter_turn (frames_of outer.items) (tree selection) reader.entry.symbols.now next) }
{
    if begins_filter(reader.symbols, next) {
        after_filter(reader.alloc, outer, selection, filter(reader.symbols, next))
    } else {
        close(reader, next, outer, selection)
    }
}

/// The whole selection that ends with an operand.
pub(crate) fn ended(alloc: Global, left: Left, operand: Operand) -> Result<Parsed, Memory>
    ensures { IfOk result (λ parsed. tree parsed
        ≡ m.selection_with (left_of left) (m.operand_of operand.negation (primary_of operand.primary) operand.options)) }
{
    let Ok(parsed) = operand_tree(alloc, operand) else {
        drop(left);
        return Err(Memory);
    };
    selection_with(alloc, left, parsed)
}

/// The whole selection that ends with a stop word option.
pub(crate) fn stops_ended(alloc: Global, left: Left, stops: Stops) -> Result<Parsed, Memory>
    ensures { IfOk result (λ parsed. tree parsed
        ≡ m.selection_with (left_of left)
        (m.operand_of stops.operand.negation (primary_of stops.operand.primary) (stops.operand.options ++ m.stop_option stops.at stops.terms ∷ []))) }
{
    let Ok(operand) = with_stops(stops) else {
        drop(left);
        return Err(Memory);
    };
    ended(alloc, left, operand)
}

/// The whole selection that ends with a thesaurus without levels.
pub(crate) fn thesaurus_ended(alloc: Global, left: Left, last: Uses) -> Result<Parsed, Memory>
    ensures { IfOk result (λ parsed. tree parsed
        ≡ m.thesaurus_selection (left_of left) last.operand.negation (primary_of last.operand.primary) last.operand.options last.at
        last.name last.relationship) }
{
    let Ok(operand) = with_one_use(alloc, last, None) else {
        drop(left);
        return Err(Memory);
    };
    ended(alloc, left, operand)
}

/// After whole options.
#[tactic(auto, unfolding(crate::specs::steps::Turns::options_turn))]
pub(crate) fn given(
    reader: Reader<'_>,
    next: usize,
    context: Context,
    operand: Operand,
) -> Result<(State, usize), Halt>
    ensures { Answers state_of result
        (turns.options_turn (frames_of context.outer.items) (left_of context.left) operand.negation (primary_of operand.primary) operand.options
        reader.entry.symbols.now next) }
{
    if begins_filter(reader.symbols, next) {
        let Context { outer, left } = context;
        let selection = ended(reader.alloc, left, operand)?;
        after_filter(reader.alloc, outer, selection, filter(reader.symbols, next))
    } else {
        unfiltered(reader, next, context, operand)
    }
}

/// After whole options, but no filter.
#[tactic(auto, unfolding(crate::specs::steps::Turns::unfiltered_turn))]
fn unfiltered(
    reader: Reader<'_>,
    next: usize,
    context: Context,
    operand: Operand,
) -> Result<(State, usize), Halt>
    ensures { Answers state_of result
        (turns.unfiltered_turn (frames_of context.outer.items) (left_of context.left) operand.negation (primary_of operand.primary) operand.options
        reader.entry.symbols.now next) }
{
    if is_word(reader.symbols, next, "using") {
        let at = place_at(reader.symbols, next);
        using(reader, next + 1, context, operand, at)
    } else {
        let Ok(parsed) = operand_tree(reader.alloc, operand) else {
            drop(context);
            return Err(Halt::Memory);
        };
        joint(reader, next, context, parsed)
    }
}

/// After the `using` at that place.
#[tactic(auto, unfolding(crate::specs::steps::Turns::using_turn))]
fn using(
    reader: Reader<'_>,
    next: usize,
    context: Context,
    operand: Operand,
    at: usize,
) -> Result<(State, usize), Halt>
    ensures { Answers state_of result
        (turns.using_turn (frames_of context.outer.items) (left_of context.left) operand.negation (primary_of operand.primary) operand.options at
        reader.entry.symbols.now next) }
{
    if is_word(reader.symbols, next, "thesaurus") {
        thesaurus_first(reader, next + 1, context, operand, at)
    } else if is_word(reader.symbols, next, "stop") {
        stop_words(reader, next + 1, context, operand, at)
    } else {
        plain(reader, next, context, operand, at)
    }
}

/// Stop words after their `stop`.
fn stop_words(
    reader: Reader<'_>,
    next: usize,
    context: Context,
    operand: Operand,
    at: usize,
) -> Result<(State, usize), Halt>
    ensures { Answers state_of result (reading
        (keywords.key (codes "words")
        (m.term_next (frames_of context.outer.items) (left_of context.left) operand.negation (primary_of operand.primary) operand.options at [] false))
        reader.entry.symbols.now next) }
{
    if is_word(reader.symbols, next, "words") {
        let terms = Items::new(reader.alloc);
        let stops = Stops { operand, at, terms };
        term(reader, next + 1, context, stops, false)
    } else {
        drop((context, operand));
        Err(Halt::Stuck(next))
    }
}

/// An option without a list.
fn plain(
    reader: Reader<'_>,
    next: usize,
    context: Context,
    operand: Operand,
    at: usize,
) -> Result<(State, usize), Halt>
    ensures { Answers state_of result (further (reading (keywords.plain_option at) reader.entry.symbols.now next) (λ o k. Ok (
      turns.stands
          (frames_of context.outer.items) (left_of context.left) (m.given_options operand.negation (primary_of operand.primary) (operand.options ++ o ∷ [])),
      k,
    ))) }
{
    match plain_option(reader, next, at) {
        Err(halt) => {
            drop((context, operand));
            Err(halt)
        }
        Ok((option, end)) => {
            let Ok(more) = with_option(operand, option) else {
                drop(context);
                return Err(Halt::Memory);
            };
            let stage = Stage::Given(more);
            Ok((State { context, stage }, end))
        }
    }
}

fn with_option(operand: Operand, option: PlacedOption) -> Result<Operand, Memory>
    ensures { IfOk result (λ more. more ≡ record operand { options = operand.options ++ option ∷ [] }) }
{
    let Operand {
        negation,
        primary,
        options,
    } = operand;
    let mut options = options;
    if options.push(option).is_err() {
        drop((primary, options));
        return Err(Memory);
    }
    Ok(Operand {
        negation,
        primary,
        options,
    })
}

/// After stop words.
#[tactic(auto, unfolding(crate::specs::steps::Turns::stop_terms_turn))]
pub(crate) fn stop_terms(
    reader: Reader<'_>,
    next: usize,
    context: Context,
    stops: Stops,
) -> Result<(State, usize), Halt>
    ensures { Answers state_of result (turns.stop_terms_turn (frames_of context.outer.items) (left_of context.left) stops.operand.negation
        (primary_of stops.operand.primary) stops.operand.options stops.at stops.terms reader.entry.symbols.now next) }
{
    if is_word(reader.symbols, next, "union") {
        term(reader, next + 1, context, stops, false)
    } else if is_word(reader.symbols, next, "except") {
        term(reader, next + 1, context, stops, true)
    } else {
        let Ok(operand) = with_stops(stops) else {
            drop(context);
            return Err(Halt::Memory);
        };
        given(reader, next, context, operand)
    }
}

/// The operand with a stop word option.
pub(crate) fn with_stops(stops: Stops) -> Result<Operand, Memory>
    ensures { IfOk result (λ more. more ≡ record stops.operand { options = stops.operand.options ++ m.stop_option stops.at stops.terms ∷ [] }) }
{
    let Stops { operand, at, terms } = stops;
    let option = MatchOption::StopWords(StopChoice::Sets(terms));
    with_option(operand, PlacedOption { at, option })
}

/// After a thesaurus outside parentheses.
#[tactic(auto, unfolding(crate::specs::steps::Turns::thesaurus_turn))]
pub(crate) fn thesaurus(
    reader: Reader<'_>,
    next: usize,
    context: Context,
    last: Uses,
) -> Result<(State, usize), Halt>
    ensures { Answers state_of result (turns.thesaurus_turn (frames_of context.outer.items) (left_of context.left) last.operand.negation
        (primary_of last.operand.primary) last.operand.options last.at last.name last.relationship reader.entry.symbols.now next) }
{
    if last.relationship.is_none() && is_word(reader.symbols, next, "relationship") {
        related(reader, next + 1, context, last)
    } else {
        after_name(reader, next, context, last)
    }
}

#[tactic(auto, unfolding(crate::specs::steps::Turns::thesaurus_rest_turn))]
fn after_name(
    reader: Reader<'_>,
    next: usize,
    context: Context,
    last: Uses,
) -> Result<(State, usize), Halt>
    ensures { Answers state_of result (turns.thesaurus_rest_turn (frames_of context.outer.items) (left_of context.left) last.operand.negation
        (primary_of last.operand.primary) last.operand.options last.at last.name last.relationship reader.entry.symbols.now next) }
{
    if is_word(reader.symbols, next, "at") {
        after_at(reader, next + 1, context, last)
    } else if begins_range_without_at(reader.symbols, next) {
        levels(
            reader,
            context,
            last,
            range_without_at(reader.symbols, next),
        )
    } else {
        after_thesaurus(reader, next, context, last)
    }
}

/// The rest of levels, whose range was read or not.
fn levels(
    reader: Reader<'_>,
    context: Context,
    last: Uses,
    read: Result<(Range, usize), usize>,
) -> Result<(State, usize), Halt>
    ensures { Answers state_of result (turns.levels_turn
        (turns.with_levels (frames_of context.outer.items) (left_of context.left) last.operand.negation (primary_of last.operand.primary)
        last.operand.options last.at last.name last.relationship) reader.entry.symbols.now read) }
{
    match read {
        Err(stuck) => {
            drop((context, last));
            Err(Halt::Stuck(stuck))
        }
        Ok((range, end)) => levels_outside(reader, end, context, last, range),
    }
}

/// After an `at`, which begins levels or a filter.
#[tactic(auto, unfolding(crate::specs::steps::Turns::after_at_turn))]
fn after_at(
    reader: Reader<'_>,
    next: usize,
    context: Context,
    last: Uses,
) -> Result<(State, usize), Halt>
    ensures { Answers state_of result (turns.after_at_turn (frames_of context.outer.items) (left_of context.left) last.operand.negation
        (primary_of last.operand.primary) last.operand.options last.at last.name last.relationship reader.entry.symbols.now next) }
{
    if is_word(reader.symbols, next, "least") || is_word(reader.symbols, next, "most") {
        levels(reader, context, last, bound(reader.symbols, next))
    } else {
        let Context { outer, left } = context;
        let selection = thesaurus_ended(reader.alloc, left, last)?;
        after_filter(reader.alloc, outer, selection, side(reader.symbols, next))
    }
}

/// After a thesaurus that has no levels, but not at an `at`.
#[tactic(auto, unfolding(crate::specs::steps::Turns::after_thesaurus_turn))]
fn after_thesaurus(
    reader: Reader<'_>,
    next: usize,
    context: Context,
    last: Uses,
) -> Result<(State, usize), Halt>
    ensures { Answers state_of result (turns.after_thesaurus_turn (frames_of context.outer.items) (left_of context.left) last.operand.negation
        (primary_of last.operand.primary) last.operand.options last.at last.name last.relationship reader.entry.symbols.now next) }
{
    if begins_other_filter(reader.symbols, next) {
        let Context { outer, left } = context;
        let selection = thesaurus_ended(reader.alloc, left, last)?;
        after_filter(
            reader.alloc,
            outer,
            selection,
            other_filter(reader.symbols, next),
        )
    } else {
        let Ok(operand) = with_one_use(reader.alloc, last, None) else {
            drop(context);
            return Err(Halt::Memory);
        };
        unfiltered(reader, next, context, operand)
    }
}
