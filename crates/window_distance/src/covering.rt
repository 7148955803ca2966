ghost use Rattle.std.specs.Prelude.{◌≡◌, ◌≤◌, ◌-◌, nat_lt, true};
ghost use Rattle.std.specs.List.{list_all, range_with_len};
ghost use Rattle.window_distance.specs.steps.Covering.{is_covered, end_with};

use ft_base::Hit;

/// Whether each word from `from` to `to - 1` is covered by a hit that is whole.
pub(crate) fn are_covered(hits: &[Hit], from: u64, to: u64) -> bool
    ensures { result ≡ list_all (is_covered hits.now) (range_with_len from (to - from)) }
{
    let mut place = from;
    while place < to {
        let end = end_of_cover(hits, place);
        if end == place {
            return false;
        }
        place = end;
    }
    true
}

/// A word up to which, from `place` on, each word before it is covered by a hit that is whole. It is `place` where
/// `place` isn't covered. Hits that follow one another in the text and in the list are passed in one go.
fn end_of_cover(hits: &[Hit], place: u64) -> u64
    ensures within { place ≤ result }
    ensures moved { nat_lt place result ≡ is_covered hits.now place }
    ensures covered { list_all (is_covered hits.now) (range_with_len place (result - place)) ≡ true }
{
    let mut end = place;
    for hit in hits {
        end = end_with(hit, end);
    }
    end
}

/// The word after a hit that is whole and covers the word `end`; else `end`.
fn end_with(hit: &Hit, end: u64) -> u64
    ensures { result ≡ end_with hit.now end }
{
    if hit.whole && u64::from(hit.from) <= end && end <= u64::from(hit.to) {
        u64::from(hit.to) + 1
    } else {
        end
    }
}
