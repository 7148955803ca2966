//! Where the includes of an operand may lie: by the filters round it, and by the includes that were chosen before.

ghost use Rattle.std.specs.Prelude.{◌≡◌, ◌≤◌, fold, vec_capacity};
ghost use Rattle.ft_operators.specs.Bounds.{all_numbers, bounds_inside, earlier_end, filter_bounds, filter_reach, numbers_round, order_behind};
ghost use Rattle.ft_operators.specs.Bounds.{reach_inside, round_hit, round_hits, smaller, unit_reach};
ghost use Rattle.ft_operators.specs.Course.{course_out, round_words};
ghost use Rattle.ft_operators.specs.Standing.{course_now, includes_now};
ghost use Rattle.ft_operators.specs.steps.Nodes.{standing};
ghost use Rattle.ft_operators.specs.steps.Walking.{MayGoOn};

use crate::PhraseHits;
use crate::bounds::{Bounds, OrderBound, UnitBounds};
use crate::course::{Course, Windows};
use crate::extent::{UnitExtents, extent_in, greatest_value, lone_size, spread};
use crate::gathering::gather;
use crate::node::Node;
use crate::reach::{Reach, no_reach};
use ft_base::{Filter, Hit, Unit};

/// The course of the right side of an And, at the present way of the left side.
pub(crate) fn course_now<P: PhraseHits>(
    course: Course,
    left: &Node<P>,
    held: &mut Vec<Hit>,
) -> Course
    requires { MayGoOn (standing P.state course left.now) (vec_capacity held.old) }
    ensures course { result ≡ course_now course ((standing P.state course left.now).rest) }
    ensures room { vec_capacity held.old ≤ vec_capacity held.new }
{
    held.clear();
    gather(left, held);
    Course {
        item: course.item,
        windows: course.windows,
        bounds: round_hits(&course.reach, course.bounds, held),
        reach: course.reach,
        extents: course.extents,
        beside: course.beside,
    }
}

/// The course of the right side of a mild not, at the present way of the left side.
pub(crate) fn course_out<P: PhraseHits>(
    course: Course,
    left: &Node<P>,
    held: &mut Vec<Hit>,
) -> Course
    requires { MayGoOn (standing P.state course left.now) (vec_capacity held.old) }
    ensures course { result ≡ course_out course (includes_now ((standing P.state course left.now).rest)) }
    ensures room { vec_capacity held.old ≤ vec_capacity held.new }
{
    held.clear();
    gather(left, held);
    let bounds = Bounds {
        words: round_each(lone_size(course.beside), held),
        ..Bounds::everywhere()
    };
    Course {
        bounds,
        reach: no_reach(),
        ..course
    }
}

/// The words that an include of so many words lies in which covers each word of the hits.
fn round_each(words: Option<u32>, hits: &[Hit]) -> UnitBounds
    ensures { result ≡ fold (round_words words) all_numbers hits.now }
{
    let mut bounds = UnitBounds { from: 0, to: None };
    for hit in hits {
        bounds = round_words(words, bounds, hit);
    }
    bounds
}

/// The same of one hit. One that ends before it begins has no word.
fn round_words(words: Option<u32>, bounds: UnitBounds, hit: &Hit) -> UnitBounds
    ensures { result ≡ round_words words bounds hit.now }
{
    if hit.from <= hit.to {
        numbers_round(words, hit.from, hit.to, bounds)
    } else {
        bounds
    }
}

/// The bounds in which includes beside the hits may lie.
pub(crate) fn round_hits(reach: &Reach, bounds: Bounds, hits: &[Hit]) -> Bounds
    ensures { result ≡ round_hits reach.now bounds hits.now }
{
    let mut bounds = bounds;
    for hit in hits {
        bounds = round_hit(reach, bounds, hit);
    }
    bounds
}

/// The bounds in which includes beside the hit may lie.
fn round_hit(reach: &Reach, bounds: Bounds, hit: &Hit) -> Bounds
    ensures { result ≡ round_hit reach.now bounds hit.now }
{
    Bounds {
        words: numbers_round(reach.words, hit.from, hit.to, bounds.words),
        sentences: numbers_round(
            reach.sentences,
            hit.sent_from,
            hit.sent_to,
            bounds.sentences,
        ),
        paragraphs: numbers_round(
            reach.paragraphs,
            hit.para_from,
            hit.para_to,
            bounds.paragraphs,
        ),
        order: order_behind(reach.ordered, hit, bounds.order),
    }
}

/// The numbers of the bounds that a window of the size has which has room for those from the first to the last.
fn numbers_round(size: Option<u32>, first: u32, last: u32, bounds: UnitBounds) -> UnitBounds
    ensures { result ≡ numbers_round size first last bounds }
{
    match size {
        None => bounds,
        Some(size) => {
            let size = u64::from(size);
            let from = (u64::from(last) + 1).saturating_sub(size);
            UnitBounds {
                from: bounds.from.max(from),
                to: Some(earlier_end(bounds.to, u64::from(first) + size)),
            }
        }
    }
}

pub(crate) fn earlier_end(end: Option<u64>, other: u64) -> u64
    ensures { result ≡ earlier_end end other }
{
    match end {
        None => other,
        Some(end) => end.min(other),
    }
}

/// Where order is asked for, hits of phrases after the hit's begin no earlier than it.
fn order_behind(ordered: bool, hit: &Hit, order: OrderBound) -> OrderBound
    ensures { result ≡ order_behind ordered hit.now order }
{
    if !ordered {
        return order;
    }
    OrderBound {
        query: order.query.max(hit.query),
        from: order.from.max(hit.from),
    }
}

/// The bounds of the includes before a filter. Where each window is gone through no way is left out.
pub(crate) fn bounds_inside(windows: Windows, kind: &Filter, bounds: Bounds) -> Bounds
    ensures { result ≡ bounds_inside windows kind.now bounds }
{
    match windows {
        Windows::Each => bounds,
        Windows::Telling | Windows::First => filter_bounds(kind, bounds),
    }
}

fn filter_bounds(kind: &Filter, bounds: Bounds) -> Bounds
    ensures { result ≡ filter_bounds kind.now bounds }
{
    match *kind {
        Filter::Window(..) | Filter::Distance(..) => Bounds {
            order: OrderBound { query: 0, from: 0 },
            ..bounds
        },
        _ => bounds,
    }
}

/// What is said of every two includes before a filter. Where each window is gone through no way is left out.
pub(crate) fn reach_inside(
    windows: Windows,
    extents: UnitExtents,
    kind: &Filter,
    reach: Reach,
) -> Reach
    ensures { result ≡ reach_inside windows extents kind.now reach }
{
    match windows {
        Windows::Each => reach,
        Windows::Telling | Windows::First => filter_reach(extents, kind, reach),
    }
}

fn filter_reach(extents: UnitExtents, kind: &Filter, reach: Reach) -> Reach
    ensures { result ≡ filter_reach extents kind.now reach }
{
    match *kind {
        Filter::Ordered => Reach {
            ordered: true,
            ..reach
        },
        Filter::Window(size, unit) => unit_reach(unit, Some(size)),
        Filter::Distance(range, unit) => {
            let extent = extent_in(unit, &extents);
            unit_reach(unit, spread(extent, greatest_value(range)))
        }
        Filter::SameSentence => Reach {
            sentences: Some(smaller(reach.sentences, 1)),
            ..reach
        },
        Filter::SameParagraph => Reach {
            paragraphs: Some(smaller(reach.paragraphs, 1)),
            ..reach
        },
        _ => reach,
    }
}

/// A window of the size, if there is one, in the unit alone.
fn unit_reach(unit: Unit, size: Option<u32>) -> Reach
    ensures { result ≡ unit_reach unit size }
{
    match unit {
        Unit::Words => Reach {
            words: size,
            ..no_reach()
        },
        Unit::Sentences => Reach {
            sentences: size,
            ..no_reach()
        },
        Unit::Paragraphs => Reach {
            paragraphs: size,
            ..no_reach()
        },
    }
}

fn smaller(size: Option<u32>, other: u32) -> u32
    ensures { result ≡ smaller size other }
{
    match size {
        None => other,
        Some(size) => size.min(other),
    }
}
