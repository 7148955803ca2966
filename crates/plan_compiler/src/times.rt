//! Ranges of times of the words of a selection.

ghost use Rattle.std.specs.Prelude.{◌≡◌, map, Some};
ghost use Rattle.all_matches.specs.Allowed as allowed;
ghost use Rattle.counted_shapes.specs.Shapes as shapes;
ghost use Rattle.ft_syntax.specs.View.{form, forms_of};

use ft_base::Range;
use ft_syntax::{Selection, Selections};

/// Whether no words of the selection have a range of times.
#[cycle(times)]
pub(crate) fn without_times(selection: &Selection) -> bool
    ensures { result ≡ allowed.without_times (form selection.now) }
{
    match selection {
        Selection::Words(words) => has_no_range(words.times),
        Selection::Or(parts) => each_without_times(parts),
        Selection::And(parts) => each_without_times(parts),
        Selection::MildNot(left, right) => without_times(left) && without_times(right),
        Selection::Not(operand) => without_times(operand),
        Selection::Filtered(operand, _filter) => without_times(operand),
        Selection::With(operand, _options) => without_times(operand),
    }
}

#[cycle(times)]
fn each_without_times(parts: &Selections) -> bool
    ensures { result ≡ allowed.each_without_times (forms_of (map form parts.now)) }
{
    for part in parts.as_slice() {
        if !without_times(part) {
            return false;
        }
    }
    true
}

fn has_no_range(times: Option<Range>) -> bool
    ensures { result ≡ allowed.has_no_range times }
{
    times.is_none()
}

/// The least number of times in the range. Words without one have to occur once.
pub(crate) fn least_times(times: Option<Range>) -> u32
    ensures { result ≡ shapes.least_times times }
{
    match times {
        None => 1,
        Some(range) => least_of(range),
    }
}

fn least_of(range: Range) -> u32
    ensures { result ≡ shapes.least_times (Some range) }
{
    match range {
        Range::Exactly(n) => n,
        Range::AtLeast(n) => n,
        Range::AtMost(_n) => 0,
        Range::FromTo(low, _high) => low,
    }
}

/// The greatest number of times in the range, if there is one.
pub(crate) fn most_times(times: Option<Range>) -> Option<u32>
    ensures { result ≡ shapes.most_times times }
{
    match times {
        None => None,
        Some(range) => most_of(range),
    }
}

fn most_of(range: Range) -> Option<u32>
    ensures { result ≡ shapes.most_times (Some range) }
{
    match range {
        Range::Exactly(n) => Some(n),
        Range::AtLeast(_n) => None,
        Range::AtMost(n) => Some(n),
        Range::FromTo(_low, high) => Some(high),
    }
}
