ghost use Rattle.std.specs.Prelude.{◌≡◌, Some};
ghost use Rattle.all_matches.specs.Join.{join};
ghost use Rattle.all_matches.specs.Window.{fits_window};
ghost use Rattle.window_distance.specs.steps.Widening.{widened, with_hit, wide, with_cover};

use crate::Includes;
use crate::covering::are_covered;
use crate::positions::{end_in, start_in};
use ft_base::{Hit, Unit};

/// The hit that stands for the includes of a Match after a window and a distance (the standard's `joinIncludes`):
/// from the first to the last word, sentence and paragraph of all, with the number of the first include's phrase. It is
/// whole where each include is and each word from its first to its last is covered. `None` exactly where there is no
/// include.
pub fn join(includes: &Includes<'_>) -> Option<Hit>
    ensures joined { result ≡ join includes.now }
{
    let hits = includes.hits();
    match wide(hits) {
        None => None,
        Some(joined) => Some(with_cover(hits, joined)),
    }
}

/// The hit, which stays whole where the hits cover each of its words.
fn with_cover(hits: &[Hit], joined: Hit) -> Hit
    ensures { result ≡ with_cover hits.now joined }
{
    let end = u64::from(joined.to) + 1;
    let whole = joined.whole && are_covered(hits, u64::from(joined.from), end);
    Hit { whole, ..joined }
}

/// Whether a window of this size can hold all hits.
pub(crate) fn fits_window(size: u32, unit: Unit, hits: &[Hit]) -> bool
    ensures { result ≡ fits_window size unit (join hits.now) }
{
    match wide(hits) {
        None => false,
        Some(joined) => fits(size, unit, &joined),
    }
}

/// Whether a window of this size can hold the hit.
fn fits(size: u32, unit: Unit, hit: &Hit) -> bool
    ensures { result ≡ fits_window size unit (Some hit.now) }
{
    let after = u64::from(start_in(unit, hit)) + u64::from(size);
    u64::from(end_in(unit, hit)) < after
}

/// The hits as one, which is whole where each is.
fn wide(hits: &[Hit]) -> Option<Hit>
    ensures { result ≡ wide hits.now }
{
    let mut joined = None;
    for hit in hits {
        joined = with_hit(joined, hit);
    }
    joined
}

/// What one more hit makes of those before it.
fn with_hit(joined: Option<Hit>, hit: &Hit) -> Option<Hit>
    ensures { result ≡ with_hit joined hit.now }
{
    match joined {
        None => Some(*hit),
        Some(joined) => Some(widened(&joined, hit)),
    }
}

/// Two hits as one, which is whole where both are.
fn widened(first: &Hit, other: &Hit) -> Hit
    ensures { result ≡ widened first.now other.now }
{
    Hit {
        query: first.query,
        from: first.from.min(other.from),
        to: first.to.max(other.to),
        sent_from: first.sent_from.min(other.sent_from),
        sent_to: first.sent_to.max(other.sent_to),
        para_from: first.para_from.min(other.para_from),
        para_to: first.para_to.max(other.para_to),
        whole: first.whole && other.whole,
    }
}
