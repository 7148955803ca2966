ghost use Rattle.std.specs.Prelude.{◌≡◌, ◌++◌, ◌∷◌, [], IsTrue, filter, option_to_list};
ghost use Rattle.all_matches.specs.Distance.{neighbours_in_range, in_order};
ghost use Rattle.window_distance.specs.steps.Sorting.{is_after, stands_with, first_of, first_after, follows, all_follow, last_of};

use crate::positions::{end_in, gap_in_range, stands_before, start_in};
use ft_base::{Hit, Range, Unit};

/// Whether every two neighbours of the hits, by first and then last word, have a distance in a range.
///
/// A list isn't sorted without memory: the hits at one place after the other are looked for from the front of the list,
/// which takes as many looks at each hit as there are places.
pub(crate) fn neighbours_in_range(range: Range, unit: Unit, hits: &[Hit]) -> bool
    ensures { result ≡ neighbours_in_range range unit (in_order hits.now) }
{
    let mut place = None;
    let mut last = None;
    while let Some(next) = first_after(hits, &place) {
        if !all_follow(range, unit, hits, &next, &mut last) {
            return false;
        }
        place = Some(next);
    }
    true
}

/// Of the hits after a place, or of all, the one that stands first.
fn first_after(hits: &[Hit], place: &Option<Hit>) -> Option<Hit>
    ensures { result ≡ first_after place.now hits.now }
{
    let mut best = None;
    for hit in hits {
        if is_after(place, hit) {
            best = nearer(best, hit);
        }
    }
    best
}

/// Whether the hits at a place follow the last one before them, and one another, at a distance in the range. Then the
/// last of them is the last one.
fn all_follow(range: Range, unit: Unit, hits: &[Hit], place: &Hit, last: &mut Option<Hit>) -> bool
    ensures followed { result ≡ all_follow range unit last.old (filter (stands_with place.now) hits.now) }
    ensures last { IsTrue result → last.new ≡ last_of last.old (filter (stands_with place.now) hits.now) }
{
    for hit in hits {
        if stands_with(place, hit) {
            if !follows(range, unit, last, hit) {
                return false;
            }
            *last = Some(*hit);
        }
    }
    true
}

/// Whether a hit stands after the words of another one.
fn is_after(place: &Option<Hit>, hit: &Hit) -> bool
    ensures { result ≡ is_after place.now hit.now }
{
    match place {
        None => true,
        Some(place) => !stands_before(hit, place),
    }
}

/// Whether a hit has the first and the last word of another one.
fn stands_with(place: &Hit, hit: &Hit) -> bool
    ensures { result ≡ stands_with place.now hit.now }
{
    stands_before(place, hit) && stands_before(hit, place)
}

/// Of the best hit so far, if there is one, and one more the one that stands first.
fn nearer(best: Option<Hit>, hit: &Hit) -> Option<Hit>
    ensures { result ≡ first_of (option_to_list best ++ hit.now ∷ []) }
{
    match best {
        None => Some(*hit),
        Some(best) => {
            if stands_before(&best, hit) {
                Some(best)
            } else {
                Some(*hit)
            }
        }
    }
}

/// Whether a hit has a distance in the range to the one before it, if there is one.
fn follows(range: Range, unit: Unit, last: &Option<Hit>, hit: &Hit) -> bool
    ensures { result ≡ follows range unit last.now hit.now }
{
    match last {
        None => true,
        Some(last) => gap_in_range(range, end_in(unit, last), start_in(unit, hit)),
    }
}
