//! Steps of the reader inside stop word options.

ghost use Rattle.std.specs.Prelude.{◌≡◌, [], ◌∷◌, ◌++◌, IfOk};
ghost use Rattle.ft_base.specs.declared.options.StopSource.TheVariants as Source;
ghost use Rattle.ft_parser.specs.steps.State.{Answers, frames_of, left_of, primary_of, state_of};
ghost use Rattle.ft_parser.specs.steps.Turns.{stands};
ghost use Rattle.selection_grammar.specs.Grammar.{texts_of};
ghost use Rattle.selection_grammar.specs.steps.Machine as m;
ghost use Rattle.selection_grammar.specs.steps.Reading.{reading};

use crate::heads::{closes_parenthesis, is_comma, is_word, opens_parenthesis, place_at, text_at};
use crate::operand_turns::one_string;
use crate::state::{Context, Halt, Reader, Stage, State, Stops};
use ft_base::{Items, Line, Memory, StopSource, StopTerm, StopTerms};
use selection_grammar::PlacedString;
use std::alloc::Global;

fn with_term(terms: StopTerms, except: bool, source: StopSource) -> Result<StopTerms, Memory>
    ensures { IfOk result (λ more. more ≡ terms ++ record { except = except; source = source } ∷ []) }
{
    let mut more = terms;
    more.push(StopTerm { except, source })?;
    Ok(more)
}

/// A term, where one is wanted.
pub(crate) fn term(
    reader: Reader<'_>,
    next: usize,
    context: Context,
    stops: Stops,
    except: bool,
) -> Result<(State, usize), Halt>
    ensures { Answers state_of result (reading
        (m.term_next (frames_of context.outer.items) (left_of context.left) stops.operand.negation (primary_of stops.operand.primary) stops.operand.options
        stops.at stops.terms except) reader.entry.symbols.now next) }
{
    if is_word(reader.symbols, next, "at") {
        listed(reader, next + 1, context, stops, except)
    } else if opens_parenthesis(reader.symbols, next) {
        written(reader, next + 1, context, stops, except)
    } else {
        drop((context, stops));
        Err(Halt::Stuck(next))
    }
}

fn listed(
    reader: Reader<'_>,
    next: usize,
    context: Context,
    stops: Stops,
    except: bool,
) -> Result<(State, usize), Halt>
    ensures { Answers state_of result (reading
        (m.listed_term (frames_of context.outer.items) (left_of context.left) stops.operand.negation (primary_of stops.operand.primary)
        stops.operand.options stops.at stops.terms except) reader.entry.symbols.now next) }
{
    match text_at(reader, next) {
        Err(_) => {
            drop((context, stops));
            Err(Halt::Memory)
        }
        Ok(None) => {
            drop((context, stops));
            Err(Halt::Stuck(next))
        }
        Ok(Some(name)) => {
            let Stops { operand, at, terms } = stops;
            let Ok(terms) = with_term(terms, except, StopSource::At(name)) else {
                drop((context, operand));
                return Err(Halt::Memory);
            };
            let stage = Stage::StopTerms(Stops { operand, at, terms });
            Ok((State { context, stage }, next + 1))
        }
    }
}

fn written(
    reader: Reader<'_>,
    next: usize,
    context: Context,
    stops: Stops,
    except: bool,
) -> Result<(State, usize), Halt>
    ensures { Answers state_of result (reading
        (m.written_term (frames_of context.outer.items) (left_of context.left) stops.operand.negation (primary_of stops.operand.primary)
        stops.operand.options stops.at stops.terms except) reader.entry.symbols.now next) }
{
    match text_at(reader, next) {
        Err(_) => {
            drop((context, stops));
            Err(Halt::Memory)
        }
        Ok(None) => {
            drop((context, stops));
            Err(Halt::Stuck(next))
        }
        Ok(Some(text)) => {
            let at = place_at(reader.symbols, next);
            let Ok(strings) = one_string(reader.alloc, PlacedString { at, text }) else {
                drop((context, stops));
                return Err(Halt::Memory);
            };
            let stage = Stage::StopStrings(stops, except, strings);
            Ok((State { context, stage }, next + 1))
        }
    }
}

fn texts(alloc: Global, strings: &Items<PlacedString>) -> Result<Items<Line>, Memory>
    ensures { IfOk result (λ texts. texts ≡ texts_of strings.now) }
{
    let mut texts = Items::new(alloc);
    for string in strings.as_slice() {
        texts.push(Line::read(alloc, string.text.as_str())?)?;
    }
    Ok(texts)
}

/// After a string of a term.
pub(crate) fn stop_strings(
    reader: Reader<'_>,
    next: usize,
    context: Context,
    stops: Stops,
    except: bool,
    strings: Items<PlacedString>,
) -> Result<(State, usize), Halt>
    ensures { Answers state_of result (reading
        (m.next_at (frames_of context.outer.items) (left_of context.left)
        (m.stop_strings stops.operand.negation (primary_of stops.operand.primary) stops.operand.options stops.at stops.terms except strings))
        reader.entry.symbols.now next) }
{
    if is_comma(reader.symbols, next) {
        more_strings(reader, next + 1, context, stops, except, strings)
    } else if closes_parenthesis(reader.symbols, next) {
        let Stops { operand, at, terms } = stops;
        let Ok(texts) = texts(reader.alloc, &strings) else {
            drop((context, operand, terms, strings));
            return Err(Halt::Memory);
        };
        drop(strings);
        let Ok(terms) = with_term(terms, except, StopSource::Written(texts)) else {
            drop((context, operand));
            return Err(Halt::Memory);
        };
        let stage = Stage::StopTerms(Stops { operand, at, terms });
        Ok((State { context, stage }, next + 1))
    } else {
        drop((context, stops, strings));
        Err(Halt::Stuck(next))
    }
}

fn more_strings(
    reader: Reader<'_>,
    next: usize,
    context: Context,
    stops: Stops,
    except: bool,
    strings: Items<PlacedString>,
) -> Result<(State, usize), Halt>
    ensures { Answers state_of result (reading
        (m.further_string
        (λ xs. stands (frames_of context.outer.items) (left_of context.left)
        (m.stop_strings stops.operand.negation (primary_of stops.operand.primary) stops.operand.options stops.at stops.terms except xs)) strings)
        reader.entry.symbols.now next) }
{
    match text_at(reader, next) {
        Err(_) => {
            drop((context, stops, strings));
            Err(Halt::Memory)
        }
        Ok(None) => {
            drop((context, stops, strings));
            Err(Halt::Stuck(next))
        }
        Ok(Some(text)) => {
            let at = place_at(reader.symbols, next);
            let mut more = strings;
            if more.push(PlacedString { at, text }).is_err() {
                drop((context, stops, more));
                return Err(Halt::Memory);
            }
            let stage = Stage::StopStrings(stops, except, more);
            Ok((State { context, stage }, next + 1))
        }
    }
}
