//! Whether phrases stand in order.

ghost use Rattle.std.specs.Prelude.{◌≡◌, ◌≤◌, true};
ghost use Rattle.window_merges.specs.Choices.{some_choice};
ghost use Rattle.phrase_merges.specs.Choices.{begin_in_order};
ghost use Rattle.phrase_merges.specs.Rows.{all_aims, all_hits, all_rising};

use crate::edge::Edge;
use crate::reaching::least_number;
use ft_base::{Steps, Unit};
use ft_operators::PhraseHits;
use std::sync::ledger::Ledger;

/// Whether one hit of each phrase can be chosen so that none begins before one of an earlier phrase.
///
/// The lists go forward only: for each phrase in turn the first hit is taken that doesn't begin before the last one.
pub fn begin_in_order<P: PhraseHits, L: Ledger>(
    phrases: &mut Vec<Vec<P>>,
    steps: &mut Steps<L>,
) -> bool
    requires { all_rising P.state phrases.old.items ≡ true }
    ensures ordered { result ≡ some_choice begin_in_order (all_hits P.state phrases.old.items) }
    ensures aims { all_aims P.state phrases.new.items ≡ all_aims P.state phrases.old.items }
    ensures grown { steps.old ≤ steps.new }
{
    let mut place: u64 = 0;
    for number in 0..phrases.len() {
        let phrase = &mut phrases[number];
        match least_number(phrase, Edge::Start, Edge::Start, Unit::Words, place, steps) {
            None => return false,
            Some(first) => place = u64::from(first),
        }
    }
    true
}
