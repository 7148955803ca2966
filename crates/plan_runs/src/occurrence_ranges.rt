//! Whether words occur often enough.

ghost use Rattle.std.specs.Prelude.{◌≡◌, ◌-◌, ◌^◌, ℕ, min};
ghost use Rattle.all_matches.specs.Compositional.{enough};
ghost use Rattle.all_matches.specs.Times.{number_in_range};

use ft_base::Range;

/// Whether so many occurrences are enough, of which 2^64 - 1 stands for more too.
pub(crate) fn is_enough(times: Option<Range>, count: u64) -> bool
    ensures { (number : ℕ) → count ≡ min number (2 ^ 64 - 1) → result ≡ enough times number }
{
    match times {
        None => count > 0,
        Some(range) => is_in_range(range, count),
    }
}

fn is_in_range(range: Range, count: u64) -> bool
    ensures { (number : ℕ) → count ≡ min number (2 ^ 64 - 1) → result ≡ number_in_range range number }
{
    match range {
        Range::Exactly(n) => count == n as u64,
        Range::AtLeast(n) => n as u64 <= count,
        Range::AtMost(n) => count <= n as u64,
        Range::FromTo(low, high) => low as u64 <= count && count <= high as u64,
    }
}
