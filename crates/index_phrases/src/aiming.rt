//! The cursors of a phrase, aimed at a span.

ghost use Rattle.std.specs.Prelude.{◌≡◌, ◌≤◌, map, true};
ghost use Rattle.std.specs.List.{All};
ghost use Rattle.place_merges.specs.Sources.{wanted, wanted_words};
ghost use Rattle.index_phrases.specs.steps.Aiming.{HasDocument, counted_words, own_wanted, size_of, sizes_of, variant_words, wanted_size};

use crate::target::Target;
use crate::word_terms::WordTerms;
use ft_base::Steps;
use index_versions::TermCursor;
use place_merges::{Item, Variant};
use std::sync::ledger::Ledger;

/// Aims the cursors of the variants, and lets each variant count.
pub(crate) fn aim_variants<'v, L: Ledger>(
    target: &Target<'v>,
    terms: &mut Vec<Vec<WordTerms<'v>>>,
    variants: &mut Vec<Variant<TermCursor<'v>>>,
    steps: &mut Steps<L>,
)
    requires sized { map sizes_of variants.old.items ≡ map (map wanted_size) (map variant_words terms.old.items) }
    requires there { All (All (HasDocument target.now.doc.0)) (map variant_words terms.old.items) }
    ensures aimed { wanted_words (λ cursor. cursor) variants.new.items
        ≡ map (map (own_wanted target.now.doc.0 target.now.span)) (map variant_words terms.old.items) }
    ensures same { map sizes_of variants.new.items ≡ map sizes_of variants.old.items }
    ensures terms { map variant_words terms.new.items ≡ map variant_words terms.old.items }
    ensures grown { steps.old ≤ steps.new }
{
    for number in 0..variants.len() {
        let words = &mut terms[number];
        let variant = &mut variants[number];
        aim_variant(target, words, variant, steps);
    }
}

/// Aims the cursors of each word of a variant.
fn aim_variant<'v, L: Ledger>(
    target: &Target<'v>,
    terms: &mut Vec<WordTerms<'v>>,
    variant: &mut Variant<TermCursor<'v>>,
    steps: &mut Steps<L>,
)
    requires sized { sizes_of variant.old ≡ map wanted_size terms.old.items }
    requires there { All (HasDocument target.now.doc.0) terms.old.items }
    ensures aimed { counted_words variant.new ≡ (true, map (own_wanted target.now.doc.0 target.now.span) terms.old.items) }
    ensures same { sizes_of variant.new ≡ sizes_of variant.old }
    ensures terms { terms.new.items ≡ terms.old.items }
    ensures grown { steps.old ≤ steps.new }
{
    aim_items(target, terms, &mut variant.items, steps);
    variant.counts = true;
}

fn aim_items<'v, L: Ledger>(
    target: &Target<'v>,
    terms: &mut Vec<WordTerms<'v>>,
    items: &mut Vec<Item<TermCursor<'v>>>,
    steps: &mut Steps<L>,
)
    requires sized { map size_of items.old.items ≡ map wanted_size terms.old.items }
    requires there { All (HasDocument target.now.doc.0) terms.old.items }
    ensures aimed { map (wanted (λ cursor. cursor)) items.new.items ≡ map (own_wanted target.now.doc.0 target.now.span) terms.old.items }
    ensures same { map size_of items.new.items ≡ map size_of items.old.items }
    ensures terms { terms.new.items ≡ terms.old.items }
    ensures grown { steps.old ≤ steps.new }
{
    for number in 0..items.len() {
        let word = &mut terms[number];
        let item = &mut items[number];
        aim_item(target, word, item, steps);
    }
}

fn aim_item<'v, L: Ledger>(
    target: &Target<'v>,
    terms: &mut WordTerms<'v>,
    item: &mut Item<TermCursor<'v>>,
    steps: &mut Steps<L>,
)
    requires sized { size_of item.old ≡ wanted_size terms.old }
    requires there { HasDocument target.now.doc.0 terms.old }
    ensures aimed { wanted (λ cursor. cursor) item.new ≡ own_wanted target.now.doc.0 target.now.span terms.old }
    ensures same { size_of item.new ≡ size_of item.old }
    ensures terms { terms.new ≡ terms.old }
    ensures grown { steps.old ≤ steps.new }
{
    if let Item::Of(cursors) = item {
        if let WordTerms::Of(sources) = terms {
            sources.aim(cursors, target.doc, target.span, steps);
        }
    }
}
