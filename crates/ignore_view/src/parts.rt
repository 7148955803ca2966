//! The parts of a span between holes.
ghost use Rattle.std.specs.Prelude.{◌≡◌, ◌≤◌, ◌<◌, ◌^◌, ◌++◌, ℕ, IfOk, OnOk};
ghost use Rattle.std.specs.List.{All};
ghost use Rattle.std.specs.List.Sorted.{IsNonDecreasingBy};
ghost use Rattle.ft_base.specs.declared.span.Span.{Span};
ghost use Rattle.all_matches.specs.Spans.{places_in};
ghost use Rattle.ignore_view.specs.Without.{is_left_out};
ghost use Rattle.ignore_view.specs.steps.Kept.{IsPart, first_place, kept_places, part_between, places_of};

use crate::Holes;
use ft_base::{Memory, Span};
use std::alloc::Global;

/// The parts of the span that are in no hole, in order.
pub(crate) fn kept_parts(alloc: Global, span: Span, holes: &Holes) -> Result<Vec<Span>, Memory>
    requires { span.from ≤ span.to }
    ensures places { IfOk result (λ parts. places_of parts.items ≡ kept_places span holes.now) }
    ensures within { IfOk result (λ parts. All (IsPart span) parts.items) }
    ensures few { IfOk result (λ parts. span.to < 2 ^ 32) }
{
    let sorted = in_order(alloc, holes)?;
    let mut parts = Vec::new(alloc);
    let mut at = span.from;
    for hole in &sorted {
        let from = hole.from.min(span.to).max(at);
        push_part(&mut parts, at, from)?;
        at = hole.to.min(span.to).max(from);
    }
    push_part(&mut parts, at, span.to)?;
    Ok(parts)
}

/// Puts the part from one place up to another after the others, where it isn't empty.
fn push_part(parts: &mut Vec<Span>, from: u32, to: u32) -> Result<(), Memory>
    ensures places { OnOk result (places_of parts.new.items ≡ places_of parts.old.items ++ places_in (part_between from to)) }
    ensures within { OnOk result ((span : Span) → span.from ≤ from → to ≤ span.to → All (IsPart span) parts.old.items → All (IsPart span) parts.new.items) }
    ensures few { to < 2 ^ 32 }
{
    if from < to {
        parts.push(Span { from, to })?;
    }
    Ok(())
}

/// The holes in the order of their first places.
fn in_order(alloc: Global, holes: &Holes) -> Result<Vec<Span>, Memory>
    ensures same { IfOk result (λ sorted. (place : ℕ) → is_left_out sorted.items place ≡ is_left_out holes.now place) }
    ensures order { IfOk result (λ sorted. IsNonDecreasingBy first_place sorted.items) }
{
    let mut sorted = Vec::from_slice(alloc, holes.as_slice())?;
    sorted.sort_by_key(|hole| hole.from)?;
    Ok(sorted)
}
