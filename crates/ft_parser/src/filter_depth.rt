//! How many filters stand directly round one another in the selection under way.

ghost use Rattle.std.specs.Prelude.{◌≡◌, Some, drop, nat_le};
ghost use Rattle.ft_parser.specs.Limits as limits;
ghost use Rattle.ft_parser.specs.steps.Scan as spec;
ghost use Rattle.ft_parser.specs.steps.State.{left_of, primary_of, stage_of, state_of};
ghost use Rattle.selection_grammar.specs.steps.Machine as m;
ghost use Rattle.selection_grammar.specs.View.{tree};

use crate::parts::begins_filter;
use crate::state::{Left, Operand, Primary, Stage, State};
use ft_base::MAX_FILTERS;
use selection_grammar::{Parsed, Placed};

/// Whether the symbol of that number begins a filter too many.
pub(crate) fn begins_deep_filter(symbols: &[Placed], next: usize, state: &State) -> bool
    ensures { result ≡ spec.begins_deep_filter (state_of state.now) (drop next symbols.now) }
{
    begins_filter(symbols, next) && has_all_filters(state)
}

/// Whether the selection under way has as many filters directly round one another as may stand so.
fn has_all_filters(state: &State) -> bool
    ensures { result ≡ limits.has_all_filters (m.selection_at (left_of state.now.context.left) (stage_of state.now.stage)) }
{
    match &state.stage {
        Stage::Given(operand) => stands_first(&state.context.left) && operand_has_all(operand),
        Stage::WithFilter(parsed) => has_filters(parsed, MAX_FILTERS),
        _ => false,
    }
}

/// Whether nothing stands to the left of an operand.
fn stands_first(left: &Left) -> bool
    ensures { result ≡ spec.stands_first (left_of left.now) }
{
    left.ors.is_empty() && left.ands.is_empty() && left.mild.is_none()
}

/// Whether an operand is a selection in parentheses alone and has them.
fn operand_has_all(operand: &Operand) -> bool
    ensures { result ≡ limits.has_all_filters (Some (m.operand_of operand.now.negation (primary_of operand.now.primary) operand.now.options)) }
{
    if operand.negation.is_some() || !operand.options.is_empty() {
        return false;
    }
    match &operand.primary {
        Primary::Phrases(_, _, _) => false,
        Primary::Inner(parsed) => has_filters(parsed, MAX_FILTERS),
    }
}

/// Whether so many filters stand directly round one another.
#[tactic(auto, using(
// the trees of words, of `ftor` and of `ftand`
selection_grammar::proofs::Views::tree_words, selection_grammar::proofs::Views::tree_or, selection_grammar::proofs::Views::tree_and,
// of `not in` and of `ftnot`
selection_grammar::proofs::Views::tree_mild, selection_grammar::proofs::Views::tree_not,
// of filters and of match options
selection_grammar::proofs::Views::tree_filtered, selection_grammar::proofs::Views::tree_with))]
fn has_filters(parsed: &Parsed, count: usize) -> bool
    ensures { result ≡ nat_le count (limits.filters_round (tree parsed.now)) }
{
    if count == 0 {
        return true;
    }
    match parsed {
        Parsed::Filtered(operand, _) => has_filters(operand, count - 1),
        _ => false,
    }
}
