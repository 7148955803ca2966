//! Where the excludes lie that a filter keeps.

ghost use Rattle.std.specs.Prelude.{◌≡◌, suc};
ghost use Rattle.ft_operators.specs.Bounds.{order_reach};
ghost use Rattle.ft_operators.specs.KeptBounds.{after_zero, from_zero, in_chosen, in_first_paragraph, in_first_sentence};
ghost use Rattle.ft_operators.specs.KeptBounds.{kept_bounds, numbers_between, unit_between};

use crate::bounds::{Bounds, UnitBounds};
use crate::narrowing::{earlier_end, round_hits};
use crate::reach::order_reach;
use all_matches::Window;
use ft_base::{Filter, Hit, Unit};

/// The bounds in which excludes lie that a filter with these includes and this window keeps, and that lie in the bounds.
pub(crate) fn kept_bounds(
    kind: &Filter,
    includes: &[Hit],
    window: Option<Window>,
    bounds: Bounds,
) -> Bounds
    ensures { result ≡ kept_bounds kind.now includes.now window bounds }
{
    match *kind {
        Filter::Ordered => round_hits(&order_reach(), bounds, includes),
        Filter::Window(_, unit) => in_chosen(unit, window, bounds),
        Filter::SameSentence => in_first_sentence(includes, bounds),
        Filter::SameParagraph => in_first_paragraph(includes, bounds),
        _ => bounds,
    }
}

fn in_chosen(unit: Unit, window: Option<Window>, bounds: Bounds) -> Bounds
    ensures { result ≡ in_chosen unit window bounds }
{
    match window {
        None => bounds,
        Some(window) => unit_between(unit, from_zero(window.from), after_zero(window.to), bounds),
    }
}

fn in_first_sentence(includes: &[Hit], bounds: Bounds) -> Bounds
    ensures { result ≡ in_first_sentence includes.now bounds }
{
    match includes.first() {
        None => bounds,
        Some(hit) => unit_at(Unit::Sentences, hit.sent_from, bounds),
    }
}

fn in_first_paragraph(includes: &[Hit], bounds: Bounds) -> Bounds
    ensures { result ≡ in_first_paragraph includes.now bounds }
{
    match includes.first() {
        None => bounds,
        Some(hit) => unit_at(Unit::Paragraphs, hit.para_from, bounds),
    }
}

/// The bounds, with one number of the unit alone.
fn unit_at(unit: Unit, number: u32, bounds: Bounds) -> Bounds
    ensures { result ≡ unit_between unit number (suc number) bounds }
{
    let from = u64::from(number);
    unit_between(unit, from, from + 1, bounds)
}

/// The bounds, no wider in the unit than from one number up to another.
fn unit_between(unit: Unit, from: u64, to: u64, bounds: Bounds) -> Bounds
    ensures { result ≡ unit_between unit from to bounds }
{
    match unit {
        Unit::Words => Bounds {
            words: numbers_between(from, to, bounds.words),
            ..bounds
        },
        Unit::Sentences => Bounds {
            sentences: numbers_between(from, to, bounds.sentences),
            ..bounds
        },
        Unit::Paragraphs => Bounds {
            paragraphs: numbers_between(from, to, bounds.paragraphs),
            ..bounds
        },
    }
}

fn numbers_between(from: u64, to: u64, bounds: UnitBounds) -> UnitBounds
    ensures { result ≡ numbers_between from to bounds }
{
    UnitBounds {
        from: bounds.from.max(from),
        to: Some(earlier_end(bounds.to, to)),
    }
}

/// A number of a window, from 0 on.
fn from_zero(number: i64) -> u64
    ensures { result ≡ from_zero number }
{
    if number < 0 { 0 } else { number as u64 }
}

/// The number after one of a window, from 0 on.
fn after_zero(number: i64) -> u64
    ensures { result ≡ after_zero number }
{
    if number < 0 { 0 } else { number as u64 + 1 }
}
