//! Where a selection ends that stands in no parentheses.

ghost use Rattle.std.specs.Prelude.{◌≡◌, drop};
ghost use Rattle.ft_parser.specs.steps.Ending as spec;
ghost use Rattle.ft_parser.specs.steps.State.{stage_of, state_of};

use crate::heads::is_word;
use crate::parts::{begins_filter, begins_range_without_at};
use crate::state::{Stage, State};
use selection_grammar::Placed;

/// Whether a selection is whole and the symbol of that number, if there is one, doesn't go on with it.
#[tactic(auto, unfolding(crate::specs::steps::Ending::ends_before))]
pub(crate) fn ends_before(symbols: &[Placed], next: usize, state: &State) -> bool
    ensures { result ≡ spec.ends_before (state_of state.now) (drop next symbols.now) }
{
    if !state.context.outer.is_empty() {
        return false;
    }
    !goes_on(symbols, next, &state.stage)
}

/// Whether the symbol of that number goes on with a selection that may end there; where none may, something has to come.
fn goes_on(symbols: &[Placed], next: usize, stage: &Stage) -> bool
    ensures { result ≡ spec.goes_on (stage_of stage.now) (drop next symbols.now) }
{
    match stage {
        Stage::Wanted(_) => true,
        Stage::InBraces(_, _) => true,
        Stage::Valued(_, _) => begins_mode(symbols, next) || follows_mode(symbols, next),
        Stage::AnyOf(_, _) => is_word(symbols, next, "word") || follows_mode(symbols, next),
        Stage::AllOf(_, _) => is_word(symbols, next, "words") || follows_mode(symbols, next),
        Stage::Moded(_, _, _) => follows_mode(symbols, next),
        Stage::Given(_) => follows_options(symbols, next),
        Stage::StopTerms(_) => begins_term(symbols, next) || follows_options(symbols, next),
        Stage::StopStrings(_, _, _) => true,
        Stage::Thesaurus(last) => follows_name(symbols, next, last.relationship.is_none()),
        Stage::ThesaurusIn(_, _) => true,
        Stage::ThesauriIn(_, _, _) => true,
        Stage::WithFilter(_) => begins_filter(symbols, next),
    }
}

/// Whether the symbol of that number may stand after a thesaurus that still may have a relationship, or not.
fn follows_name(symbols: &[Placed], next: usize, may_relate: bool) -> bool
    ensures { result ≡ spec.follows_name may_relate (drop next symbols.now) }
{
    if may_relate && is_word(symbols, next, "relationship") {
        return true;
    }
    begins_range_without_at(symbols, next) || follows_options(symbols, next)
}

fn begins_mode(symbols: &[Placed], next: usize) -> bool
    ensures { result ≡ spec.begins_mode (drop next symbols.now) }
{
    is_word(symbols, next, "any")
        || is_word(symbols, next, "all")
        || is_word(symbols, next, "phrase")
}

fn begins_term(symbols: &[Placed], next: usize) -> bool
    ensures { result ≡ spec.begins_term (drop next symbols.now) }
{
    is_word(symbols, next, "union") || is_word(symbols, next, "except")
}

fn follows_mode(symbols: &[Placed], next: usize) -> bool
    ensures { result ≡ spec.follows_mode (drop next symbols.now) }
{
    is_word(symbols, next, "occurs") || follows_options(symbols, next)
}

fn follows_options(symbols: &[Placed], next: usize) -> bool
    ensures { result ≡ spec.follows_options (drop next symbols.now) }
{
    begins_filter(symbols, next) || is_word(symbols, next, "using") || joins(symbols, next)
}

fn joins(symbols: &[Placed], next: usize) -> bool
    ensures { result ≡ spec.joins (drop next symbols.now) }
{
    is_word(symbols, next, "ftor")
        || is_word(symbols, next, "ftand")
        || is_word(symbols, next, "not")
}
