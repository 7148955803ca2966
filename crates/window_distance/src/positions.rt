ghost use Rattle.std.specs.Prelude.{◌≡◌};
ghost use Rattle.all_matches.specs.Distance.{gap_in_range, stands_before, distance_in_range};
ghost use Rattle.all_matches.specs.Positions.{start_in, end_in, share_one, are_apart, agree_in_order};
ghost use Rattle.all_matches.specs.Window.{lies_in_window};

use all_matches::Window;
use ft_base::{Hit, Range, Unit};

/// The first number of a hit in a unit.
pub fn start_in(unit: Unit, hit: &Hit) -> u32
    ensures { result ≡ start_in unit hit.now }
{
    match unit {
        Unit::Words => hit.from,
        Unit::Sentences => hit.sent_from,
        Unit::Paragraphs => hit.para_from,
    }
}

/// The last number of a hit in a unit.
pub fn end_in(unit: Unit, hit: &Hit) -> u32
    ensures { result ≡ end_in unit hit.now }
{
    match unit {
        Unit::Words => hit.to,
        Unit::Sentences => hit.sent_to,
        Unit::Paragraphs => hit.para_to,
    }
}

/// Whether both hits lie in one sentence or paragraph, the same one.
pub(crate) fn share_one(unit: Unit, a: &Hit, b: &Hit) -> bool
    ensures { result ≡ share_one unit a.now b.now }
{
    start_in(unit, a) == end_in(unit, a)
        && start_in(unit, b) == end_in(unit, b)
        && start_in(unit, a) == start_in(unit, b)
}

/// Whether the sentences or paragraphs of two hits are disjoint.
pub(crate) fn are_apart(unit: Unit, a: &Hit, b: &Hit) -> bool
    ensures { result ≡ are_apart unit a.now b.now }
{
    end_in(unit, a) < start_in(unit, b) || end_in(unit, b) < start_in(unit, a)
}

/// Whether two hits stand in the text as their phrases stand in the query.
pub(crate) fn agree_in_order(a: &Hit, b: &Hit) -> bool
    ensures { result ≡ agree_in_order a.now b.now }
{
    (a.from <= b.from && a.query <= b.query) || (b.from <= a.from && b.query <= a.query)
}

/// Whether a hit lies in a window.
pub(crate) fn lies_in_window(unit: Unit, window: &Window, hit: &Hit) -> bool
    ensures { result ≡ lies_in_window unit window.now hit.now }
{
    window.from <= i64::from(start_in(unit, hit)) && i64::from(end_in(unit, hit)) <= window.to
}

/// Whether the first hit stands no later than the second, by first and then last word.
pub(crate) fn stands_before(a: &Hit, b: &Hit) -> bool
    ensures { result ≡ stands_before a.now b.now }
{
    a.from < b.from || (a.from == b.from && a.to <= b.to)
}

/// Whether `start` less `end` less 1, which may be below zero, is in a range.
pub(crate) fn gap_in_range(range: Range, end: u32, start: u32) -> bool
    ensures { result ≡ gap_in_range range end start }
{
    let start = u64::from(start);
    let after = u64::from(end) + 1;
    match range {
        Range::Exactly(number) => start == after + u64::from(number),
        Range::AtLeast(number) => after + u64::from(number) <= start,
        Range::AtMost(number) => start <= after + u64::from(number),
        Range::FromTo(low, high) => {
            after + u64::from(low) <= start && start <= after + u64::from(high)
        }
    }
}

/// Whether the distance of two hits is in a range, the one that stands first being taken first.
pub(crate) fn distance_in_range(range: Range, unit: Unit, a: &Hit, b: &Hit) -> bool
    ensures { result ≡ distance_in_range range unit a.now b.now }
{
    if stands_before(a, b) {
        gap_in_range(range, end_in(unit, a), start_in(unit, b))
    } else {
        gap_in_range(range, end_in(unit, b), start_in(unit, a))
    }
}
