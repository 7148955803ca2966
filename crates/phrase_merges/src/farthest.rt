//! How far a search through all phrases leads.

ghost use Rattle.std.specs.Prelude.{◌≡◌, ◌≤◌, true};
ghost use Rattle.phrase_merges.specs.Rows.{all_aims, all_rising};
ghost use Rattle.phrase_merges.specs.steps.Ahead.{farthest_of, number_at, phrases_from};

use crate::edge::Edge;
use crate::reaching::least_number;
use ft_base::{Steps, Unit};
use ft_operators::PhraseHits;
use std::sync::ledger::Ledger;

/// The farthest of the least first or last numbers that each phrase has, among its hits that begin, or else end, at the place or
/// after it. `None` is given exactly where a phrase has no such hit.
pub(crate) fn farthest<P: PhraseHits, L: Ledger>(
    phrases: &mut Vec<Vec<P>>,
    by: Edge,
    edge: Edge,
    unit: Unit,
    place: u64,
    steps: &mut Steps<L>,
) -> Option<u32>
    requires { all_rising P.state phrases.old.items ≡ true }
    ensures farthest { result ≡ farthest_of (number_at edge unit) (phrases_from P.state by unit place phrases.old.items) }
    ensures left { phrases_from P.state by unit place phrases.new.items ≡ phrases_from P.state by unit place phrases.old.items }
    ensures rises { all_rising P.state phrases.new.items ≡ true }
    ensures aims { all_aims P.state phrases.new.items ≡ all_aims P.state phrases.old.items }
    ensures grown { steps.old ≤ steps.new }
{
    let mut far: u32 = 0;
    for number in 0..phrases.len() {
        match least_number(&mut phrases[number], by, edge, unit, place, steps) {
            None => return None,
            Some(end) => far = far.max(end),
        }
    }
    Some(far)
}
