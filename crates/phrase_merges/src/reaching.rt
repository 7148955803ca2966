//! The hits that the lists of a phrase have from a place on.

ghost use Rattle.std.specs.Prelude.{◌≡◌, ◌≤◌, option_map, true};
ghost use Rattle.ft_operators.specs.Phrases.{first_hit};
ghost use Rattle.phrase_merges.specs.Rows.{aims_of, are_rising, is_rising};
ghost use Rattle.phrase_merges.specs.steps.Ahead.{from_on, least_of, lists_from, number_at, sooner};

use crate::edge::Edge;
use ft_base::{Hit, Steps, Unit};
use ft_operators::PhraseHits;
use std::sync::ledger::Ledger;
use window_distance::{end_in, start_in};

/// Moves the list to its first hit that begins, or else ends, at the place or after it.
pub(crate) fn reach<P: PhraseHits, L: Ledger>(
    source: &mut P,
    by: Edge,
    unit: Unit,
    place: u64,
    steps: &mut Steps<L>,
) -> Option<Hit>
    requires { is_rising ((P.state source.old).rest) ≡ true }
    ensures first { result ≡ first_hit ((P.state source.new).rest) }
    ensures left { (P.state source.new).rest ≡ from_on by unit place ((P.state source.old).rest) }
    ensures rises { is_rising ((P.state source.new).rest) ≡ true }
    ensures aims { (P.state source.new).aims ≡ (P.state source.old).aims }
    ensures grown { steps.old ≤ steps.new }
{
    while let Some(hit) = source.here() {
        if place <= u64::from(number_at(by, unit, &hit)) {
            return Some(hit);
        }
        source.next(steps);
    }
    None
}

/// The least first or last number of the hits that begin, or else end, at the place or after it, if there are any.
pub(crate) fn least_number<P: PhraseHits, L: Ledger>(
    sources: &mut Vec<P>,
    by: Edge,
    edge: Edge,
    unit: Unit,
    place: u64,
    steps: &mut Steps<L>,
) -> Option<u32>
    requires { are_rising P.state sources.old.items ≡ true }
    ensures least { result ≡ least_of (number_at edge unit) (lists_from P.state by unit place sources.old.items) }
    ensures left { lists_from P.state by unit place sources.new.items ≡ lists_from P.state by unit place sources.old.items }
    ensures rises { are_rising P.state sources.new.items ≡ true }
    ensures aims { aims_of P.state sources.new.items ≡ aims_of P.state sources.old.items }
    ensures grown { steps.old ≤ steps.new }
{
    let mut least = None;
    for number in 0..sources.len() {
        let first = reach(&mut sources[number], by, unit, place, steps);
        least = sooner(least, number_of(first, edge, unit));
    }
    least
}

fn number_of(hit: Option<Hit>, edge: Edge, unit: Unit) -> Option<u32>
    ensures { result ≡ option_map (number_at edge unit) hit }
{
    match hit {
        None => None,
        Some(hit) => Some(number_at(edge, unit, &hit)),
    }
}

fn number_at(edge: Edge, unit: Unit, hit: &Hit) -> u32
    ensures { result ≡ number_at edge unit hit.now }
{
    match edge {
        Edge::Start => start_in(unit, hit),
        Edge::End => end_in(unit, hit),
    }
}

/// The smaller of two numbers, or the one that there is.
fn sooner(first: Option<u32>, second: Option<u32>) -> Option<u32>
    ensures { result ≡ sooner first second }
{
    match first {
        None => second,
        Some(first) => match second {
            None => Some(first),
            Some(second) => Some(first.min(second)),
        },
    }
}
