//! The choices that a filter leaves in the present way of its operand: a window filter one for each window that is asked
//! for, any other filter one.

ghost use Rattle.std.specs.Prelude.{◌≡◌, ◌≤◌, ◌<◌, ◌+◌, ◌-◌, ◌^◌, ◌-ℤ◌, pos, suc, None, get_or, length, vec_capacity, ◌∷◌, []};
ghost use Rattle.ft_base.specs.declared.filter.Filter.TheVariants as Filter;
ghost use Rattle.all_matches.specs.Filters.{choices};
ghost use Rattle.all_matches.specs.Join.{join};
ghost use Rattle.all_matches.specs.Positions.{end_in, start_in};
ghost use Rattle.all_matches.specs.Window.{window_at};
ghost use Rattle.ft_operators.specs.Course.{asked_for, number_among};
ghost use Rattle.ft_operators.specs.steps.Forms.{choices_of, count_now};
ghost use Rattle.ft_operators.specs.steps.Nodes.{standing};
ghost use Rattle.ft_operators.specs.steps.Walking.{MayGoOn};

use crate::PhraseHits;
use crate::course::{Course, Windows};
use crate::gathering::gather;
use crate::node::{Node, Sieve};
use all_matches::Window;
use ft_base::{Filter, Hit, Unit};
use window_distance::{Includes, end_in, join, passes, start_in};

/// How many choices the filter has in the present way of the operand.
pub(crate) fn choice_count<P: PhraseHits>(
    kind: &Filter,
    operand: &Node<P>,
    course: Course,
    held: &mut Vec<Hit>,
) -> u64
    requires { MayGoOn (standing P.state course operand.now) (vec_capacity held.old) }
    ensures count { result ≡ count_now kind.now course ((standing P.state course operand.now).rest) }
    ensures room { vec_capacity held.old ≤ vec_capacity held.new }
{
    held.clear();
    gather(operand, held);
    count_of(kind, held, course)
}

/// How many choices the filter has with these includes: none where it doesn't keep them.
fn count_of(kind: &Filter, hits: &[Hit], course: Course) -> u64
    ensures { result ≡ length (choices_of kind.now course hits.now) }
{
    if !passes(kind, &Includes::of(hits), course.item) {
        return 0;
    }
    match *kind {
        Filter::Window(size, unit) => window_count(size, unit, course.windows, hits),
        _ => one_choice(course.windows),
    }
}

/// A choice that is no window is always asked for.
fn one_choice(windows: Windows) -> u64
    ensures { result ≡ length (asked_for windows (None ∷ [])) }
{
    match windows {
        Windows::Each | Windows::Telling | Windows::First => 1,
    }
}

/// How many windows of the size are asked for round the joined hit.
fn window_count(size: u32, unit: Unit, windows: Windows, hits: &[Hit]) -> u64
    ensures { result ≡ length (asked_for windows (choices (Filter.Window size unit) hits.now)) }
{
    match join(&Includes::of(hits)) {
        None => 0,
        Some(joined) => {
            let after = u64::from(start_in(unit, &joined)) + u64::from(size);
            let all = after.saturating_sub(u64::from(end_in(unit, &joined)));
            match windows {
                Windows::Each => all,
                Windows::Telling => all - passed_over(size, unit, &joined),
                Windows::First => all.min(1),
            }
        }
    }
}

/// How many windows of the size round the hit begin before the first word, without the first of them.
fn passed_over(size: u32, unit: Unit, hit: &Hit) -> u64
    ensures { result ≡ size - suc (end_in unit hit.now) }
{
    u64::from(size).saturating_sub(u64::from(end_in(unit, hit)) + 1)
}

/// The choice of that number, counted from 0, among those that are asked for with these includes: a window of a window
/// filter.
pub(crate) fn chosen_window(
    kind: &Filter,
    windows: Windows,
    lead: u64,
    hits: &[Hit],
) -> Option<Window>
    requires { lead < length (asked_for windows (choices kind.now hits.now)) }
    ensures { result ≡ get_or (asked_for windows (choices kind.now hits.now)) lead None }
{
    match *kind {
        Filter::Window(size, unit) => match join(&Includes::of(hits)) {
            None => None,
            Some(joined) => {
                let number = window_number(size, unit, windows, &joined, lead);
                Some(window_of(size, unit, &joined, number))
            }
        },
        _ => None,
    }
}

/// The number, among all windows, of the window of that number among those that are asked for.
fn window_number(size: u32, unit: Unit, windows: Windows, hit: &Hit, lead: u64) -> u64
    requires { lead < (start_in unit hit.now + size) - end_in unit hit.now }
    ensures { result ≡ number_among windows size (end_in unit hit.now) lead }
{
    let most = u64::from(start_in(unit, hit)) + u64::from(size);
    match windows {
        Windows::Each | Windows::First => lead,
        Windows::Telling => {
            if lead == 0 {
                return 0;
            }
            lead.min(most) + passed_over(size, unit, hit)
        }
    }
}

/// The window of the present way through the filter, round these includes.
pub(crate) fn sieve_window<P: PhraseHits>(sieve: &Sieve<P>, hits: &[Hit]) -> Option<Window>
    requires { sieve.now.lead < length (choices sieve.now.kind hits.now) }
    ensures { result ≡ get_or (choices sieve.now.kind hits.now) sieve.now.lead None }
{
    chosen_window(&sieve.kind, Windows::Each, sieve.lead, hits)
}

/// The window of that number, counted from 0, of those of the size that hold the hit.
fn window_of(size: u32, unit: Unit, hit: &Hit, lead: u64) -> Window
    requires { lead < (start_in unit hit.now + size) - end_in unit hit.now }
    ensures { result ≡ window_at size (pos (suc (end_in unit hit.now) + lead) -ℤ pos size) }
{
    let most = u64::from(start_in(unit, hit)) + u64::from(size);
    let last = u64::from(end_in(unit, hit)) + lead.min(most);
    window_to(size, last)
}

/// The window of the size that ends with this number.
fn window_to(size: u32, last: u64) -> Window
    requires { last < 2 ^ 34 }
    ensures from { result.from ≡ pos (suc last) -ℤ pos size }
    ensures to { result.to ≡ pos last }
{
    let to = last as i64;
    Window {
        from: to + 1 - i64::from(size),
        to,
    }
}
