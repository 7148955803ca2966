//! The words that a phrase covers, from its first spots on.

ghost use Rattle.std.specs.Prelude.{◌≡◌, ◌+◌, ◌*◌, ◌^◌, ◌<◌, ◌≤◌, IsTrue};
ghost use Rattle.place_merges.specs.Sources.{all_left, all_lists, all_plain};
ghost use Rattle.spot_merges.specs.steps.Covering as spec;

use ft_base::{FirstWords, Steps};
use place_merges::{Spot, Variant, next_lead};
use std::sync::ledger::Ledger;

/// Some spots of a phrase that were passed.
#[derive(Clone, Copy)]
pub(crate) struct Cover {
    /// The place after the last word of the one that ends last.
    pub(crate) end: u32,
    /// The first spot after them; or else one of no words, at a place before which none of the later ones begins.
    pub(crate) lead: Spot,
}

/// Passes the spots that begin at the place or before it. Those that begin later don't cover the word there, so that the first of them
/// need not be found: the search stops as soon as it has led past the place.
pub(crate) fn cover_up_to<H: FirstWords, L: Ledger>(
    variants: &mut Vec<Variant<H>>,
    cover: Cover,
    place: u32,
    to: u32,
    steps: &mut Steps<L>,
) -> Cover
    requires before { place < to }
    requires inside { cover.lead.place + cover.lead.words < 2 ^ 32 }
    ensures same { spec.SameAt place (spec.is_free H.stand to variants.new.items result) (spec.is_free H.stand to variants.old.items cover) }
    ensures ahead { place < result.lead.place }
    ensures inside { result.lead.place + result.lead.words < 2 ^ 32 }
    ensures lists { all_lists H.stand variants.new.items ≡ all_lists H.stand variants.old.items }
    ensures plain { all_plain H.plain variants.new.items ≡ all_plain H.plain variants.old.items }
    ensures counted { IsTrue (all_plain H.plain variants.old.items) →
        steps.new + 2 * all_left H.stand variants.new.items ≤ steps.old + 2 * all_left H.stand variants.old.items }
    ensures grown { steps.old ≤ steps.new }
{
    let mut passed = cover;
    while passed.lead.place <= place {
        let end = end_with(passed.end, passed.lead);
        let lead = next_lead(variants, passed.lead, to, steps);
        passed = Cover { end, lead };
    }
    passed
}

/// The place after the last word of some spots and one more: a spot of no words covers none.
fn end_with(end: u32, spot: Spot) -> u32
    requires { spot.place + spot.words < 2 ^ 32 }
    ensures { result ≡ spec.end_with end spot }
{
    if spot.words > 0 {
        end.max(spot.place + spot.words)
    } else {
        end
    }
}
