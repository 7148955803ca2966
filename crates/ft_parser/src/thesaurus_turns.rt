//! Steps of the reader inside thesaurus options.

ghost use Rattle.std.specs.Prelude.{◌≡◌, [], ◌∷◌, ◌++◌, IfOk, None, Some, codes, drop};
ghost use Rattle.ft_parser.specs.steps.State.{Answers, frames_of, left_of, primary_of, state_of};
ghost use Rattle.ft_parser.specs.steps.Turns as turns;
ghost use Rattle.ft_parser.specs.steps.Parts.{before_word};
ghost use Rattle.ft_parser.specs.steps.Turns.{stands, thesaurus_in_turn, thesaurus_in_rest_turn, levels_turn, in_levels, with_levels};
ghost use Rattle.selection_grammar.specs.Keywords as keywords;
ghost use Rattle.selection_grammar.specs.steps.Machine as m;
ghost use Rattle.selection_grammar.specs.steps.Reading.{reading};

use crate::heads::{closes_parenthesis, is_comma, is_word, opens_parenthesis, text_at};
use crate::parts::{begins_range_without_at, range};
use crate::state::{Context, Halt, Operand, Reader, Stage, State, Uses};
use ft_base::{Items, Memory, Range, ThesaurusChoice, ThesaurusUse, ThesaurusUses};
use selection_grammar::{MatchOption, Placed, PlacedOption};
use std::alloc::Global;

/// The name of the first thesaurus, in parentheses or not.
pub(crate) fn thesaurus_first(
    reader: Reader<'_>,
    next: usize,
    context: Context,
    operand: Operand,
    at: usize,
) -> Result<(State, usize), Halt>
    ensures { Answers state_of result
        (reading (m.thesaurus_first (frames_of context.outer.items) (left_of context.left) operand.negation (primary_of operand.primary) operand.options at)
        reader.entry.symbols.now next) }
{
    if is_word(reader.symbols, next, "at") {
        name_outside(reader, next + 1, context, operand, at)
    } else if opens_parenthesis(reader.symbols, next) {
        let uses = Items::new(reader.alloc);
        named_inside(reader, next + 1, context, operand, at, uses)
    } else {
        drop((context, operand));
        Err(Halt::Stuck(next))
    }
}

fn name_outside(
    reader: Reader<'_>,
    next: usize,
    context: Context,
    operand: Operand,
    at: usize,
) -> Result<(State, usize), Halt>
    ensures { Answers state_of result
        (reading (m.thesaurus_name (frames_of context.outer.items) (left_of context.left) operand.negation (primary_of operand.primary) operand.options at)
        reader.entry.symbols.now next) }
{
    match text_at(reader, next) {
        Err(_) => {
            drop((context, operand));
            Err(Halt::Memory)
        }
        Ok(None) => {
            drop((context, operand));
            Err(Halt::Stuck(next))
        }
        Ok(Some(name)) => {
            let uses = Uses {
                operand,
                at,
                name,
                relationship: None,
            };
            let stage = Stage::Thesaurus(uses);
            Ok((State { context, stage }, next + 1))
        }
    }
}

/// `at` and the name of a thesaurus in parentheses.
fn named_inside(
    reader: Reader<'_>,
    next: usize,
    context: Context,
    operand: Operand,
    at: usize,
    uses: ThesaurusUses,
) -> Result<(State, usize), Halt>
    ensures { Answers state_of result (reading
        (keywords.key (codes "at")
        (m.thesaurus_name_in (frames_of context.outer.items) (left_of context.left) operand.negation (primary_of operand.primary) operand.options at uses))
        reader.entry.symbols.now next) }
{
    if is_word(reader.symbols, next, "at") {
        name_inside(reader, next + 1, context, operand, at, uses)
    } else {
        drop((context, operand, uses));
        Err(Halt::Stuck(next))
    }
}

fn name_inside(
    reader: Reader<'_>,
    next: usize,
    context: Context,
    operand: Operand,
    at: usize,
    uses: ThesaurusUses,
) -> Result<(State, usize), Halt>
    ensures { Answers state_of result (reading
        (m.thesaurus_name_in (frames_of context.outer.items) (left_of context.left) operand.negation (primary_of operand.primary) operand.options at uses)
        reader.entry.symbols.now next) }
{
    match text_at(reader, next) {
        Err(_) => {
            drop((context, operand, uses));
            Err(Halt::Memory)
        }
        Ok(None) => {
            drop((context, operand, uses));
            Err(Halt::Stuck(next))
        }
        Ok(Some(name)) => {
            let last = Uses {
                operand,
                at,
                name,
                relationship: None,
            };
            let stage = Stage::ThesaurusIn(last, uses);
            Ok((State { context, stage }, next + 1))
        }
    }
}

/// After whole thesauri in parentheses.
pub(crate) fn thesauri_in(
    reader: Reader<'_>,
    next: usize,
    context: Context,
    operand: Operand,
    at: usize,
    uses: ThesaurusUses,
) -> Result<(State, usize), Halt>
    ensures { Answers state_of result (reading
        (m.thesauri_next (frames_of context.outer.items) (left_of context.left) operand.negation (primary_of operand.primary) operand.options at uses)
        reader.entry.symbols.now next) }
{
    if is_comma(reader.symbols, next) {
        named_inside(reader, next + 1, context, operand, at, uses)
    } else if closes_parenthesis(reader.symbols, next) {
        let Ok(operand) = with_uses(operand, at, uses) else {
            drop(context);
            return Err(Halt::Memory);
        };
        let stage = Stage::Given(operand);
        Ok((State { context, stage }, next + 1))
    } else {
        drop((context, operand, uses));
        Err(Halt::Stuck(next))
    }
}

/// The operand with a thesaurus option.
pub(crate) fn with_uses(operand: Operand, at: usize, uses: ThesaurusUses) -> Result<Operand, Memory>
    ensures { IfOk result (λ more. more ≡ record operand { options = operand.options ++ m.thesaurus_option at uses ∷ [] }) }
{
    let Operand {
        negation,
        primary,
        options,
    } = operand;
    let mut options = options;
    let option = MatchOption::Thesaurus(ThesaurusChoice::Uses(uses));
    if options.push(PlacedOption { at, option }).is_err() {
        drop((primary, options));
        return Err(Memory);
    }
    Ok(Operand {
        negation,
        primary,
        options,
    })
}

/// After the name of a thesaurus in parentheses.
#[tactic(auto, unfolding(crate::specs::steps::Turns::thesaurus_in_turn))]
pub(crate) fn thesaurus_in(
    reader: Reader<'_>,
    next: usize,
    context: Context,
    last: Uses,
    uses: ThesaurusUses,
) -> Result<(State, usize), Halt>
    ensures { Answers state_of result (thesaurus_in_turn (frames_of context.outer.items) (left_of context.left) last.operand.negation
        (primary_of last.operand.primary) last.operand.options last.at uses last.name last.relationship reader.entry.symbols.now next) }
{
    if last.relationship.is_none() && is_word(reader.symbols, next, "relationship") {
        related_in(reader, next + 1, context, last, uses)
    } else {
        after_name_in(reader, next, context, last, uses)
    }
}

fn related_in(
    reader: Reader<'_>,
    next: usize,
    context: Context,
    last: Uses,
    uses: ThesaurusUses,
) -> Result<(State, usize), Halt>
    ensures { Answers state_of result (reading
        (m.relationship_name (λ r. stands (frames_of context.outer.items) (left_of context.left)
        (m.thesaurus_in last.operand.negation (primary_of last.operand.primary) last.operand.options last.at uses last.name (Some r))))
        reader.entry.symbols.now next) }
{
    match text_at(reader, next) {
        Err(_) => {
            drop((context, last, uses));
            Err(Halt::Memory)
        }
        Ok(None) => {
            drop((context, last, uses));
            Err(Halt::Stuck(next))
        }
        Ok(Some(text)) => {
            let last = Uses {
                operand: last.operand,
                at: last.at,
                name: last.name,
                relationship: Some(text),
            };
            let stage = Stage::ThesaurusIn(last, uses);
            Ok((State { context, stage }, next + 1))
        }
    }
}

#[tactic(auto, unfolding(crate::specs::steps::Turns::thesaurus_in_rest_turn))]
fn after_name_in(
    reader: Reader<'_>,
    next: usize,
    context: Context,
    last: Uses,
    uses: ThesaurusUses,
) -> Result<(State, usize), Halt>
    ensures { Answers state_of result (thesaurus_in_rest_turn (frames_of context.outer.items) (left_of context.left) last.operand.negation
        (primary_of last.operand.primary) last.operand.options last.at uses last.name last.relationship reader.entry.symbols.now next) }
{
    if begins_range(reader.symbols, next) {
        levels_in(reader, next, context, last, uses)
    } else {
        without_levels(reader, next, context, last, uses)
    }
}

/// After a whole thesaurus in parentheses that has no levels.
fn without_levels(
    reader: Reader<'_>,
    next: usize,
    context: Context,
    last: Uses,
    uses: ThesaurusUses,
) -> Result<(State, usize), Halt>
    ensures { Answers state_of result (reading
        (m.thesauri_next (frames_of context.outer.items) (left_of context.left) last.operand.negation (primary_of last.operand.primary) last.operand.options
        last.at (uses ++ m.thesaurus_use last.name last.relationship None ∷ [])) reader.entry.symbols.now next) }
{
    let at = last.at;
    let (operand, uses) = with_last(last, uses, None)?;
    thesauri_in(reader, next, context, operand, at, uses)
}

fn begins_range(symbols: &[Placed], next: usize) -> bool
    ensures { result ≡ turns.begins_range (drop next symbols.now) }
{
    begins_range_without_at(symbols, next) || is_word(symbols, next, "at")
}

/// The whole thesauri, with the last one.
fn with_last(
    last: Uses,
    uses: ThesaurusUses,
    levels: Option<Range>,
) -> Result<(Operand, ThesaurusUses), Memory>
    ensures { IfOk result (λ r. r ≡ (last.operand, uses ++ m.thesaurus_use last.name last.relationship levels ∷ [])) }
{
    let Uses {
        operand,
        at: _,
        name,
        relationship,
    } = last;
    let mut more = uses;
    let further = ThesaurusUse {
        name,
        relationship,
        levels,
    };
    if more.push(further).is_err() {
        drop((operand, more));
        return Err(Memory);
    }
    Ok((operand, more))
}

fn levels_in(
    reader: Reader<'_>,
    next: usize,
    context: Context,
    last: Uses,
    uses: ThesaurusUses,
) -> Result<(State, usize), Halt>
    ensures { Answers state_of result (levels_turn
        (in_levels (frames_of context.outer.items) (left_of context.left) last.operand.negation (primary_of last.operand.primary) last.operand.options
        last.at uses last.name last.relationship) reader.entry.symbols.now (reading keywords.range reader.entry.symbols.now next)) }
{
    match range(reader.symbols, next) {
        Err(stuck) => {
            drop((context, last, uses));
            Err(Halt::Stuck(stuck))
        }
        Ok((range, end)) => {
            if !is_word(reader.symbols, end, "levels") {
                drop((context, last, uses));
                return Err(Halt::Stuck(end));
            }
            let at = last.at;
            let Ok((operand, uses)) = with_last(last, uses, Some(range)) else {
                drop(context);
                return Err(Halt::Memory);
            };
            let stage = Stage::ThesauriIn(operand, at, uses);
            Ok((State { context, stage }, end + 1))
        }
    }
}

/// After the name of a thesaurus outside parentheses: its relationship.
pub(crate) fn related(
    reader: Reader<'_>,
    next: usize,
    context: Context,
    last: Uses,
) -> Result<(State, usize), Halt>
    ensures { Answers state_of result (reading
        (m.relationship_name (λ r. stands (frames_of context.outer.items) (left_of context.left)
        (m.thesaurus last.operand.negation (primary_of last.operand.primary) last.operand.options last.at last.name (Some r))))
        reader.entry.symbols.now next) }
{
    match text_at(reader, next) {
        Err(_) => {
            drop((context, last));
            Err(Halt::Memory)
        }
        Ok(None) => {
            drop((context, last));
            Err(Halt::Stuck(next))
        }
        Ok(Some(text)) => {
            let last = Uses {
                operand: last.operand,
                at: last.at,
                name: last.name,
                relationship: Some(text),
            };
            let stage = Stage::Thesaurus(last);
            Ok((State { context, stage }, next + 1))
        }
    }
}

/// The operand with a thesaurus option of one thesaurus.
pub(crate) fn with_one_use(
    alloc: Global,
    last: Uses,
    levels: Option<Range>,
) -> Result<Operand, Memory>
    ensures { IfOk result (λ more. more ≡ record last.operand { options = m.thesaurus_ended last.operand.options last.at last.name last.relationship levels }) }
{
    let at = last.at;
    let (operand, uses) = with_last(last, Items::new(alloc), levels)?;
    with_uses(operand, at, uses)
}

/// After the range of its levels.
pub(crate) fn levels_outside(
    reader: Reader<'_>,
    end: usize,
    context: Context,
    last: Uses,
    range: Range,
) -> Result<(State, usize), Halt>
    ensures { Answers state_of result (before_word (codes "levels")
        (with_levels (frames_of context.outer.items) (left_of context.left) last.operand.negation (primary_of last.operand.primary) last.operand.options
        last.at last.name last.relationship (Some range)) reader.entry.symbols.now end) }
{
    if !is_word(reader.symbols, end, "levels") {
        drop((context, last));
        return Err(Halt::Stuck(end));
    }
    let Ok(operand) = with_one_use(reader.alloc, last, Some(range)) else {
        drop(context);
        return Err(Halt::Memory);
    };
    let stage = Stage::Given(operand);
    Ok((State { context, stage }, end + 1))
}
