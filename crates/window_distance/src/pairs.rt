ghost use Rattle.std.specs.Prelude.{◌≡◌};
ghost use Rattle.std.specs.List.{list_all, list_any};
ghost use Rattle.ft_base.specs.Hits.{every_two};
ghost use Rattle.all_matches.specs.Distance.{distance_in_range};
ghost use Rattle.all_matches.specs.Filters.{all_in_one};
ghost use Rattle.all_matches.specs.Positions.{share_one, are_apart, agree_in_order};

use crate::positions::{agree_in_order, are_apart, distance_in_range, share_one};
use ft_base::{Hit, Range, Unit};

/// Whether a hit and each of the others stand in the text as their phrases stand in the query.
pub(crate) fn all_agree_in_order(hit: &Hit, others: &[Hit]) -> bool
    ensures { result ≡ list_all (agree_in_order hit.now) others.now }
{
    others.iter().all(|other| agree_in_order(hit, other))
}

/// Whether the sentences or paragraphs of a hit and each of the others are disjoint.
pub(crate) fn all_are_apart(unit: Unit, hit: &Hit, others: &[Hit]) -> bool
    ensures { result ≡ list_all (are_apart unit hit.now) others.now }
{
    others.iter().all(|other| are_apart(unit, hit, other))
}

/// Whether a hit lies in one sentence or paragraph, and each of the others in the same one.
pub(crate) fn all_share_one(unit: Unit, hit: &Hit, others: &[Hit]) -> bool
    ensures { result ≡ list_all (share_one unit hit.now) others.now }
{
    others.iter().all(|other| share_one(unit, hit, other))
}

/// Whether a hit has a distance in a range to some of the others.
pub(crate) fn some_in_range(range: Range, unit: Unit, hit: &Hit, others: &[Hit]) -> bool
    ensures { result ≡ list_any (distance_in_range range unit hit.now) others.now }
{
    others
        .iter()
        .any(|other| distance_in_range(range, unit, hit, other))
}

/// Whether every two hits stand in the text as their phrases stand in the query.
pub(crate) fn are_in_order(hits: &[Hit]) -> bool
    ensures { result ≡ every_two agree_in_order hits.now }
{
    for number in 0..hits.len() {
        if !all_agree_in_order(&hits[number], &hits[number + 1..]) {
            return false;
        }
    }
    true
}

/// Whether the sentences or paragraphs of every two hits are disjoint.
pub(crate) fn every_two_are_apart(unit: Unit, hits: &[Hit]) -> bool
    ensures { result ≡ every_two (are_apart unit) hits.now }
{
    for number in 0..hits.len() {
        if !all_are_apart(unit, &hits[number], &hits[number + 1..]) {
            return false;
        }
    }
    true
}

/// Whether all hits lie in one sentence or paragraph: each in that of the first one.
pub(crate) fn lie_in_one(unit: Unit, hits: &[Hit]) -> bool
    ensures { result ≡ all_in_one unit hits.now }
{
    hits.is_empty() || all_share_one(unit, &hits[0], hits)
}
