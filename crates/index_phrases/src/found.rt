ghost use Rattle.std.specs.Prelude.{◌≡◌, ◌≤◌};
ghost use Rattle.index_phrases.specs.steps.Numbers.{numbers_at};

use crate::target::Target;
use crate::unit_numbers::UnitNumbers;
use ft_base::Hit;
use place_merges::Spot;

/// A spot of a span at which a variant stands, and the hit on it; with the place before which all spots end, and the numbers of
/// the span's first word, from which those of the hits are counted.
#[derive(Clone, Copy)]
pub(crate) struct Found<'v> {
    pub(crate) target: Target<'v>,
    pub(crate) to: u32,
    pub(crate) first: UnitNumbers,
    pub(crate) spot: Spot,
    pub(crate) hit: Hit,
    ghost inside: { target.span.from ≤ spot.place },
    ghost counted: { first ≡ numbers_at target.breaks.breaks.now target.span.from },
}
