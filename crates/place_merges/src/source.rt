//! The hits of one source, and of several together.

ghost use Rattle.std.specs.Prelude.{◌≡◌, ◌<◌, IsTrue, option_map, true};
ghost use Rattle.ft_base.specs.Hits.{hit_at, is_sorted, sought};
ghost use Rattle.place_merges.specs.Sources.{places_left};
ghost use Rattle.place_merges.specs.steps.Searching.{Leads, Moved, SameFrom, has, shown_source, shown_sources, some_has};

use ft_base::{FirstWords, Steps};
use std::sync::ledger::Ledger;

/// Moves the source to its first hit from the place on, and tells the hit's first word.
fn reach<H: FirstWords, L: Ledger>(source: &mut H, place: u32, steps: &mut Steps<L>) -> Option<u32>
    ensures first { result ≡ option_map (λ hit. hit.from) (hit_at (H.stand source.new)) }
    ensures sorted { IsTrue (is_sorted ((H.stand source.new).hits)) }
    ensures reached { H.stand source.new ≡ sought place (H.stand source.old) }
    ensures moved { Moved (shown_source H.stand H.plain source.old) (shown_source H.stand H.plain source.new) steps.old steps.new }
{
    let Some(first) = source.first_word() else {
        return None;
    };
    if first >= place {
        return Some(first);
    }
    source.seek(place, steps);
    source.first_word()
}

/// The first place from that one on at which the source has a hit, or the limit where there is none before it.
fn lead_of_source<H: FirstWords, L: Ledger>(
    source: &mut H,
    place: u32,
    limit: u32,
    steps: &mut Steps<L>,
) -> u32
    requires { place < limit }
    ensures leads { Leads (has (places_left (H.stand source.old))) place limit result }
    ensures found { result < limit → has (places_left (H.stand source.old)) result ≡ true }
    ensures same { SameFrom place (has (places_left (H.stand source.new))) (has (places_left (H.stand source.old))) }
    ensures moved { Moved (shown_source H.stand H.plain source.old) (shown_source H.stand H.plain source.new) steps.old steps.new }
{
    match reach(source, place, steps) {
        Some(first) => first.min(limit),
        None => limit,
    }
}

/// The first place from that one on at which one of the sources has a hit, or the limit where there is none before
/// it. Of plain sources each hit that is passed counts two steps at most.
pub fn lead_of_sources<H: FirstWords, L: Ledger>(
    sources: &mut Vec<H>,
    place: u32,
    limit: u32,
    steps: &mut Steps<L>,
) -> u32
    requires { place < limit }
    ensures leads { Leads (some_has H.stand sources.old.items) place limit result }
    ensures found { result < limit → some_has H.stand sources.old.items result ≡ true }
    ensures same { SameFrom place (some_has H.stand sources.new.items) (some_has H.stand sources.old.items) }
    ensures moved { Moved (shown_sources H.stand H.plain sources.old.items) (shown_sources H.stand H.plain sources.new.items) steps.old steps.new }
{
    let mut first = limit;
    for number in 0..sources.len() {
        let next = lead_of_source(&mut sources[number], place, limit, steps);
        if next == place {
            return place;
        }
        first = first.min(next);
    }
    first
}
