//! Where symbols end.

ghost use Rattle.std.specs.Prelude.{◌≡◌, [], IfOk, None, Some, option_map};
ghost use Rattle.ft_parser.specs.steps.State.{frames_of, left_of, stage_of};
ghost use Rattle.selection_grammar.specs.steps.Machine as m;
ghost use Rattle.selection_grammar.specs.Tree as t;
ghost use Rattle.selection_grammar.specs.View.{tree};

use crate::option_turns::{ended, stops_ended, thesaurus_ended};
use crate::state::{Left, Operand, Primary, Stage, State};
use ft_base::{Items, Memory, Mode};
use selection_grammar::{Parsed, PlacedString};
use std::alloc::Global;

/// The selection, if it may end there.
pub(crate) fn finish(alloc: Global, state: State) -> Result<Option<Parsed>, Memory>
    ensures { IfOk result (λ o. option_map tree o
        ≡ m.finished_in (frames_of state.context.outer.items) (m.selection_at (left_of state.context.left) (stage_of state.stage))) }
{
    let State { context, stage } = state;
    if !context.outer.is_empty() {
        drop((context, stage));
        return Ok(None);
    }
    selection_at(alloc, context.left, stage)
}

fn selection_at(alloc: Global, left: Left, stage: Stage) -> Result<Option<Parsed>, Memory>
    ensures { IfOk result (λ o. option_map tree o ≡ m.selection_at (left_of left) (stage_of stage)) }
{
    match stage {
        Stage::Wanted(_) => {
            drop(left);
            Ok(None)
        }
        Stage::InBraces(_, strings) => {
            drop((left, strings));
            Ok(None)
        }
        Stage::Valued(n, strings) => phrases(alloc, left, n, strings, Mode::Any),
        Stage::AnyOf(n, strings) => phrases(alloc, left, n, strings, Mode::Any),
        Stage::AllOf(n, strings) => phrases(alloc, left, n, strings, Mode::All),
        Stage::Moded(n, strings, mode) => phrases(alloc, left, n, strings, mode),
        Stage::Given(operand) => Ok(Some(ended(alloc, left, operand)?)),
        Stage::StopTerms(stops) => Ok(Some(stops_ended(alloc, left, stops)?)),
        Stage::StopStrings(stops, _, strings) => {
            drop((left, stops, strings));
            Ok(None)
        }
        Stage::Thesaurus(last) => Ok(Some(thesaurus_ended(alloc, left, last)?)),
        Stage::ThesaurusIn(last, uses) => {
            drop((left, last, uses));
            Ok(None)
        }
        Stage::ThesauriIn(operand, _, uses) => {
            drop((left, operand, uses));
            Ok(None)
        }
        Stage::WithFilter(parsed) => {
            drop(left);
            Ok(Some(parsed))
        }
    }
}

fn phrases(
    alloc: Global,
    left: Left,
    negation: Option<usize>,
    strings: Items<PlacedString>,
    mode: Mode,
) -> Result<Option<Parsed>, Memory>
    ensures { IfOk result (λ o. option_map tree o ≡ Some (m.selection_with (left_of left) (m.operand_of negation (t.phrases strings mode None) []))) }
{
    let operand = Operand {
        negation,
        primary: Primary::Phrases(strings, mode, None),
        options: Items::new(alloc),
    };
    Ok(Some(ended(alloc, left, operand)?))
}
