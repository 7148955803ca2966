//! The cursors of variants, aimed at a span.

ghost use Rattle.std.specs.Prelude.{◌≡◌, ◌≤◌, ◌+◌, ◌*◌, map};
ghost use Rattle.std.specs.List.{All, sum_by};
ghost use Rattle.place_merges.specs.Sources.{all_left, variant_left, wanted};
ghost use Rattle.plan_runs.specs.steps.AskedPlaces.{AreAimed, IsAimed, wanted_at};
ghost use Rattle.plan_runs.specs.steps.RunCosts.{moves_for, term_count};
ghost use Rattle.index_phrases.specs.steps.Aiming.{AreThere, size_of, sizes_of, variant_words, wanted_size};

use crate::asked_place::AskedPlace;
use ft_base::Steps;
use index_phrases::WordTerms;
use index_versions::TermCursor;
use place_merges::{Item, Variant};
use std::sync::ledger::Ledger;

/// Aims the cursors of the variants.
pub(crate) fn aim_variants<'v, L: Ledger>(
    place: &AskedPlace<'v>,
    terms: &mut Vec<Vec<WordTerms<'v>>>,
    variants: &mut Vec<Variant<TermCursor<'v>>>,
    moves: &mut Steps<L>,
)
    requires sized { map sizes_of variants.old.items ≡ map (map wanted_size) (map variant_words terms.old.items) }
    requires there { All (All (AreThere place.now.version.now)) (map variant_words terms.old.items) }
    ensures aimed { AreAimed place.now (map variant_words terms.old.items) variants.new.items }
    ensures same { map sizes_of variants.new.items ≡ map sizes_of variants.old.items }
    ensures terms { map variant_words terms.new.items ≡ map variant_words terms.old.items }
    ensures price { moves.new + 2 * all_left (λ cursor. cursor) variants.new.items ≤
        moves.old + sum_by (sum_by (moves_for place.now)) (map variant_words terms.old.items) }
    ensures grown { moves.old ≤ moves.new }
{
    for number in 0..variants.len() {
        let words = &mut terms[number];
        let variant = &mut variants[number];
        aim_variant(place, words, variant, moves);
    }
}

/// Aims the cursors of each word of a variant.
fn aim_variant<'v, L: Ledger>(
    place: &AskedPlace<'v>,
    terms: &mut Vec<WordTerms<'v>>,
    variant: &mut Variant<TermCursor<'v>>,
    moves: &mut Steps<L>,
)
    requires sized { sizes_of variant.old ≡ map wanted_size terms.old.items }
    requires there { All (AreThere place.now.version.now) terms.old.items }
    ensures aimed { IsAimed place.now terms.old.items variant.new }
    ensures same { sizes_of variant.new ≡ sizes_of variant.old }
    ensures terms { terms.new.items ≡ terms.old.items }
    ensures price { moves.new + 2 * variant_left (λ cursor. cursor) variant.new ≤ moves.old + sum_by (moves_for place.now) terms.old.items }
    ensures grown { moves.old ≤ moves.new }
{
    aim_items(place, terms, &mut variant.items, moves);
    variant.counts = true;
}

fn aim_items<'v, L: Ledger>(
    place: &AskedPlace<'v>,
    terms: &mut Vec<WordTerms<'v>>,
    items: &mut Vec<Item<TermCursor<'v>>>,
    moves: &mut Steps<L>,
)
    requires sized { map size_of items.old.items ≡ map wanted_size terms.old.items }
    requires there { All (AreThere place.now.version.now) terms.old.items }
    ensures aimed { map (wanted (λ cursor. cursor)) items.new.items ≡ map (wanted_at place.now) terms.old.items }
    ensures same { map size_of items.new.items ≡ map size_of items.old.items }
    ensures terms { terms.new.items ≡ terms.old.items }
    ensures price { moves.new ≤ moves.old + sum_by term_count terms.old.items }
    ensures grown { moves.old ≤ moves.new }
{
    for number in 0..items.len() {
        let word = &mut terms[number];
        let item = &mut items[number];
        aim_item(place, word, item, moves);
    }
}

fn aim_item<'v, L: Ledger>(
    place: &AskedPlace<'v>,
    terms: &mut WordTerms<'v>,
    item: &mut Item<TermCursor<'v>>,
    moves: &mut Steps<L>,
)
    requires sized { size_of item.old ≡ wanted_size terms.old }
    requires there { AreThere place.now.version.now terms.old }
    ensures aimed { wanted (λ cursor. cursor) item.new ≡ wanted_at place.now terms.old }
    ensures same { size_of item.new ≡ size_of item.old }
    ensures terms { terms.new ≡ terms.old }
    ensures price { moves.new ≤ moves.old + term_count terms.old }
    ensures grown { moves.old ≤ moves.new }
{
    if let Item::Of(cursors) = item {
        if let WordTerms::Of(sources) = terms {
            sources.aim(cursors, place.doc, place.span, moves);
        }
    }
}
