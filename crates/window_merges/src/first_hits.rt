//! The first hits to which a search through all words leads.

ghost use Rattle.std.specs.Prelude.{◌<◌};
ghost use Rattle.place_merges.specs.steps.Searching.{Moved};
ghost use Rattle.window_merges.specs.steps.Reaching.{Reaches, SameWords, has_hit, shown_words};

use ft_base::{FirstWords, Steps};
use place_merges::lead_of_sources;
use std::sync::ledger::Ledger;

/// Where the words have their first hits from a place on.
#[derive(Clone, Copy)]
pub(crate) struct FirstHits {
    /// The nearest of them.
    pub near: u32,
    /// The farthest of them.
    pub far: u32,
}

/// The nearest and the farthest of the first hits that the words have from the place on, both the limit, where one word has none
/// before it.
pub(crate) fn first_hits<H: FirstWords, L: Ledger>(
    words: &mut Vec<Vec<H>>,
    place: u32,
    limit: u32,
    steps: &mut Steps<L>,
) -> FirstHits
    requires { place < limit }
    ensures reaches { Reaches (has_hit H.stand) words.old.items place limit result.near result.far }
    ensures same { SameWords (has_hit H.stand) place words.new.items words.old.items }
    ensures moved { Moved (shown_words H.stand H.plain words.old.items) (shown_words H.stand H.plain words.new.items) steps.old steps.new }
{
    let mut near = limit;
    let mut far = place;
    for number in 0..words.len() {
        let first = lead_of_sources(&mut words[number], place, limit, steps);
        if first >= limit {
            return FirstHits {
                near: limit,
                far: limit,
            };
        }
        near = near.min(first);
        far = far.max(first);
    }
    FirstHits { near, far }
}
