//! Steps of the reader at operands: where one is wanted, and after a whole one.

ghost use Rattle.std.specs.Prelude.{◌≡◌, [], ◌∷◌, IfOk, Some, None, codes};
ghost use Rattle.ft_parser.specs.steps.State.{Answers, frames_of, left_of, state_of};
ghost use Rattle.ft_parser.specs.steps.Turns.{stands};
ghost use Rattle.selection_grammar.specs.Keywords as keywords;
ghost use Rattle.selection_grammar.specs.steps.Machine as m;
ghost use Rattle.selection_grammar.specs.steps.Reading.{reading};
ghost use Rattle.selection_grammar.specs.Shapes.{whole};
ghost use Rattle.selection_grammar.specs.Tree as t;
ghost use Rattle.selection_grammar.specs.View.{tree};

use crate::building::{and_with, mild_with, or_with, selection_with};
use crate::heads::{
    closes_brace, closes_parenthesis, is_comma, is_word, opens_brace, opens_parenthesis, place_at,
    text_at,
};
use crate::state::{Context, Frame, Halt, Left, Operand, Primary, Reader, Stage, State};
use ft_base::{Items, Memory};
use selection_grammar::{Parsed, PlacedString};
use std::alloc::Global;

/// A list of one string.
pub(crate) fn one_string(alloc: Global, string: PlacedString) -> Result<Items<PlacedString>, Memory>
    ensures { IfOk result (λ strings. strings ≡ string ∷ []) }
{
    let mut strings = Items::new(alloc);
    strings.push(string)?;
    Ok(strings)
}

/// Where nothing stands to the left.
pub(crate) fn nothing_left_of(alloc: Global) -> Left
    ensures { left_of result ≡ m.nothing_left_of }
{
    Left {
        ors: Vec::new(alloc),
        ands: Vec::new(alloc),
        mild: None,
    }
}

/// Where an operand is wanted, perhaps after `ftnot`.
pub(crate) fn wanted(
    reader: Reader<'_>,
    next: usize,
    context: Context,
    negation: Option<usize>,
) -> Result<(State, usize), Halt>
    ensures { Answers state_of result
        (reading (m.wanted_next (frames_of context.outer.items) (left_of context.left) negation) reader.entry.symbols.now next) }
{
    match negation {
        Some(at) => operand(reader, next, context, Some(at)),
        None => {
            if !is_word(reader.symbols, next, "ftnot") {
                return operand(reader, next, context, None);
            }
            let stage = Stage::Wanted(Some(place_at(reader.symbols, next)));
            Ok((State { context, stage }, next + 1))
        }
    }
}

fn operand(
    reader: Reader<'_>,
    next: usize,
    context: Context,
    negation: Option<usize>,
) -> Result<(State, usize), Halt>
    ensures { Answers state_of result
        (reading (m.operand_next (frames_of context.outer.items) (left_of context.left) negation) reader.entry.symbols.now next) }
{
    match text_at(reader, next) {
        Err(_) => {
            drop(context);
            Err(Halt::Memory)
        }
        Ok(None) => enclosed(reader, next, context, negation),
        Ok(Some(text)) => {
            let at = place_at(reader.symbols, next);
            let Ok(strings) = one_string(reader.alloc, PlacedString { at, text }) else {
                drop(context);
                return Err(Halt::Memory);
            };
            let stage = Stage::Valued(negation, strings);
            Ok((State { context, stage }, next + 1))
        }
    }
}

/// An operand that begins with a brace or a parenthesis.
fn enclosed(
    reader: Reader<'_>,
    next: usize,
    context: Context,
    negation: Option<usize>,
) -> Result<(State, usize), Halt>
    ensures { Answers state_of result
        (reading (m.enclosed_next (frames_of context.outer.items) (left_of context.left) negation) reader.entry.symbols.now next) }
{
    if opens_brace(reader.symbols, next) {
        first_in_braces(reader, next + 1, context, negation)
    } else if opens_parenthesis(reader.symbols, next) {
        let inside = opened(reader.alloc, context, negation)?;
        Ok((inside, next + 1))
    } else {
        drop(context);
        Err(Halt::Stuck(next))
    }
}

fn first_in_braces(
    reader: Reader<'_>,
    next: usize,
    context: Context,
    negation: Option<usize>,
) -> Result<(State, usize), Halt>
    ensures { Answers state_of result
        (reading (m.first_in_braces (frames_of context.outer.items) (left_of context.left) negation) reader.entry.symbols.now next) }
{
    match text_at(reader, next) {
        Err(_) => {
            drop(context);
            Err(Halt::Memory)
        }
        Ok(None) => {
            drop(context);
            Err(Halt::Stuck(next))
        }
        Ok(Some(text)) => {
            let at = place_at(reader.symbols, next);
            let Ok(strings) = one_string(reader.alloc, PlacedString { at, text }) else {
                drop(context);
                return Err(Halt::Memory);
            };
            let stage = Stage::InBraces(negation, strings);
            Ok((State { context, stage }, next + 1))
        }
    }
}

/// Inside one more parenthesis.
#[tactic(auto, using(crate::proofs::Frames::pushed_first))]
fn opened(alloc: Global, context: Context, negation: Option<usize>) -> Result<State, Memory>
    ensures { IfOk result (λ state. state_of state ≡ m.opened (frames_of context.outer.items) (left_of context.left) negation) }
{
    let Context { outer, left } = context;
    let mut frames = outer;
    frames.push(Frame { left, negation })?;
    let context = Context {
        outer: frames,
        left: nothing_left_of(alloc),
    };
    let stage = Stage::Wanted(None);
    Ok(State { context, stage })
}

/// After a string in braces.
pub(crate) fn in_braces(
    reader: Reader<'_>,
    next: usize,
    context: Context,
    negation: Option<usize>,
    strings: Items<PlacedString>,
) -> Result<(State, usize), Halt>
    ensures { Answers state_of result
        (reading (m.next_at (frames_of context.outer.items) (left_of context.left) (m.in_braces negation strings)) reader.entry.symbols.now next) }
{
    if is_comma(reader.symbols, next) {
        more_in_braces(reader, next + 1, context, negation, strings)
    } else if closes_brace(reader.symbols, next) {
        let stage = Stage::Valued(negation, strings);
        Ok((State { context, stage }, next + 1))
    } else {
        drop((context, strings));
        Err(Halt::Stuck(next))
    }
}

fn more_in_braces(
    reader: Reader<'_>,
    next: usize,
    context: Context,
    negation: Option<usize>,
    strings: Items<PlacedString>,
) -> Result<(State, usize), Halt>
    ensures { Answers state_of result
        (reading (m.further_string (λ xs. stands (frames_of context.outer.items) (left_of context.left) (m.in_braces negation xs)) strings)
        reader.entry.symbols.now next) }
{
    match text_at(reader, next) {
        Err(_) => {
            drop((context, strings));
            Err(Halt::Memory)
        }
        Ok(None) => {
            drop((context, strings));
            Err(Halt::Stuck(next))
        }
        Ok(Some(text)) => {
            let at = place_at(reader.symbols, next);
            let mut more = strings;
            if more.push(PlacedString { at, text }).is_err() {
                drop((context, more));
                return Err(Halt::Memory);
            }
            let stage = Stage::InBraces(negation, more);
            Ok((State { context, stage }, next + 1))
        }
    }
}

/// A parenthesis that closes the selection.
#[tactic(auto, using(crate::proofs::Frames::pushed_first))]
pub(crate) fn close(
    reader: Reader<'_>,
    next: usize,
    outer: Vec<Frame>,
    selection: Parsed,
) -> Result<(State, usize), Halt>
    ensures { Answers state_of result (reading (m.close_next (frames_of outer.items) (tree selection)) reader.entry.symbols.now next) }
{
    let mut frames = outer;
    match frames.pop() {
        None => {
            drop((frames, selection));
            Err(Halt::Stuck(next))
        }
        Some(frame) => {
            if !closes_parenthesis(reader.symbols, next) {
                drop((frames, frame, selection));
                return Err(Halt::Stuck(next));
            }
            Ok((closed(reader.alloc, frames, frame, selection), next + 1))
        }
    }
}

fn closed(alloc: Global, outer: Vec<Frame>, frame: Frame, selection: Parsed) -> State
    ensures { state_of result ≡ stands (frames_of outer.items) (left_of frame.left) (m.given_options frame.negation (t.inner (tree selection)) []) }
{
    let operand = Operand {
        negation: frame.negation,
        primary: Primary::Inner(selection),
        options: Items::new(alloc),
    };
    let context = Context {
        outer,
        left: frame.left,
    };
    let stage = Stage::Given(operand);
    State { context, stage }
}

/// After a whole operand.
pub(crate) fn joint(
    reader: Reader<'_>,
    next: usize,
    context: Context,
    operand: Parsed,
) -> Result<(State, usize), Halt>
    ensures { Answers state_of result
        (reading (m.joint_next (frames_of context.outer.items) (left_of context.left) (tree operand)) reader.entry.symbols.now next) }
{
    if is_word(reader.symbols, next, "ftor") {
        let state = after_or(reader.alloc, context, operand)?;
        Ok((state, next + 1))
    } else if is_word(reader.symbols, next, "ftand") {
        let state = after_and(reader.alloc, context, operand)?;
        Ok((state, next + 1))
    } else if is_word(reader.symbols, next, "not") {
        after_not(reader, next + 1, context, operand)
    } else {
        let Context { outer, left } = context;
        let selection = selection_with(reader.alloc, left, operand)?;
        close(reader, next, outer, selection)
    }
}

/// After the first word of `not in`.
fn after_not(
    reader: Reader<'_>,
    next: usize,
    context: Context,
    operand: Parsed,
) -> Result<(State, usize), Halt>
    ensures { Answers state_of result (reading
        (keywords.key (codes "in") (whole (stands (frames_of context.outer.items)
        (record { ors = (left_of context.left).ors; ands = (left_of context.left).ands; mild = Some (m.mild_with (left_of context.left).mild (tree operand)) })
        (m.wanted None))))
        reader.entry.symbols.now next) }
{
    if is_word(reader.symbols, next, "in") {
        let state = after_mild(reader.alloc, context, operand)?;
        Ok((state, next + 1))
    } else {
        drop((context, operand));
        Err(Halt::Stuck(next))
    }
}

fn after_or(alloc: Global, context: Context, operand: Parsed) -> Result<State, Memory>
    ensures { IfOk result (λ state. state_of state
        ≡ stands (frames_of context.outer.items) (record { ors = m.ors_with (left_of context.left) (tree operand); ands = []; mild = None }) (m.wanted None)) }
{
    let Context { outer, left } = context;
    let mild = mild_with(alloc, left.mild, operand)?;
    let and = and_with(left.ands, mild)?;
    let mut ors = left.ors;
    ors.push(and)?;
    let left = Left {
        ors,
        ands: Vec::new(alloc),
        mild: None,
    };
    let context = Context { outer, left };
    let stage = Stage::Wanted(None);
    Ok(State { context, stage })
}

fn after_and(alloc: Global, context: Context, operand: Parsed) -> Result<State, Memory>
    ensures { IfOk result (λ state. state_of state
        ≡ stands (frames_of context.outer.items)
        (record { ors = (left_of context.left).ors; ands = m.ands_with (left_of context.left) (tree operand); mild = None }) (m.wanted None)) }
{
    let Context { outer, left } = context;
    let mild = mild_with(alloc, left.mild, operand)?;
    let mut ands = left.ands;
    ands.push(mild)?;
    let left = Left {
        ors: left.ors,
        ands,
        mild: None,
    };
    let context = Context { outer, left };
    let stage = Stage::Wanted(None);
    Ok(State { context, stage })
}

fn after_mild(alloc: Global, context: Context, operand: Parsed) -> Result<State, Memory>
    ensures { IfOk result (λ state. state_of state
        ≡ stands (frames_of context.outer.items)
        (record { ors = (left_of context.left).ors; ands = (left_of context.left).ands; mild = Some (m.mild_with (left_of context.left).mild (tree operand)) })
        (m.wanted None)) }
{
    let Context { outer, left } = context;
    let mild = mild_with(alloc, left.mild, operand)?;
    let left = Left {
        ors: left.ors,
        ands: left.ands,
        mild: Some(mild),
    };
    let context = Context { outer, left };
    let stage = Stage::Wanted(None);
    Ok(State { context, stage })
}
