//! Which selections can be shown by their best hits.

ghost use Rattle.std.specs.Prelude.{◌≡◌, map};
ghost use Rattle.ft_syntax.specs.View.{form, forms_of};
ghost use Rattle.best_hits.specs.Showable as spec;

use ft_syntax::{Selection, Selections};

/// Whether no `occurs` stands under a filter, and neither `ftnot` nor `occurs` in an `ftnot`.
pub fn can_show(selection: &Selection) -> bool
    ensures { result ≡ spec.can_show (form selection.now) }
{
    can_show_in(true, true, selection)
}

/// Whether it can be shown where `occurs` may stand or not, and `ftnot` may or not.
#[cycle(showable)]
fn can_show_in(times: bool, nots: bool, selection: &Selection) -> bool
    ensures { result ≡ spec.can_show_in times nots (form selection.now) }
{
    match selection {
        Selection::Words(words) => times || words.times.is_none(),
        Selection::Or(parts) => each_can_show_in(times, nots, parts),
        Selection::And(parts) => each_can_show_in(times, nots, parts),
        Selection::MildNot(left, right) => {
            can_show_in(times, nots, left) && can_show_in(times, nots, right)
        }
        Selection::Not(operand) => nots && can_show_in(false, false, operand),
        Selection::Filtered(operand, _filter) => can_show_in(false, nots, operand),
        Selection::With(operand, _options) => can_show_in(times, nots, operand),
    }
}

#[cycle(showable)]
fn each_can_show_in(times: bool, nots: bool, parts: &Selections) -> bool
    ensures { result ≡ spec.each_can_show_in times nots (forms_of (map form parts.now)) }
{
    for part in parts.as_slice() {
        if !can_show_in(times, nots, part) {
            return false;
        }
    }
    true
}
