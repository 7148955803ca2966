//! The terms of words that are counted, looked up in a document as far as a hit of theirs is needed.

ghost use Rattle.std.specs.Prelude.{◌≡◌, false, map};
ghost use Rattle.index_versions.specs.FirstPlaces.{soonest};
ghost use Rattle.plan_runs.specs.steps.RuledOut.{IsMissing};
ghost use Rattle.plan_runs.specs.steps.RunShapes.{counts_shape, term_counts, term_groups};
ghost use Rattle.plan_runs.specs.steps.RunSkips.{counts_skip, item_skip};
ghost use Rattle.plan_runs.specs.steps.Skips.{latest, variants_skip};

use crate::looking_up::{either, look_variants_up};
use crate::run_counts::{CountedTerms, RunCounts, TermGroup};
use ft_base::DocId;

/// Looks up the words of each item that asks for a hit.
pub(crate) fn look_counts_up(doc: DocId, counts: &mut RunCounts<'_>) -> bool
    ensures same { counts_shape counts.new ≡ counts_shape counts.old }
    ensures none { result ≡ false → IsMissing (λ part. counts_skip doc.0 part (counts_shape counts.old)) }
{
    look_items_up(doc, &mut counts.words)
}

/// Looks up items that are all needed.
fn look_items_up(doc: DocId, items: &mut Vec<CountedTerms<'_>>) -> bool
    ensures same { map term_counts items.new.items ≡ map term_counts items.old.items }
    ensures none { result ≡ false → IsMissing (λ part. latest (map (item_skip doc.0 part) (map term_counts items.old.items))) }
{
    for number in 0..items.len() {
        if !look_item_up(doc, &mut items[number]) {
            return false;
        }
    }
    true
}

/// Nothing is needed where no hit is asked for.
fn look_item_up(doc: DocId, item: &mut CountedTerms<'_>) -> bool
    ensures same { term_counts item.new ≡ term_counts item.old }
    ensures none { result ≡ false → IsMissing (λ part. item_skip doc.0 part (term_counts item.old)) }
{
    if item.least == 0 {
        return true;
    }
    look_groups_up(doc, &mut item.groups)
}

/// Looks up groups of variants of which one is needed.
fn look_groups_up(doc: DocId, groups: &mut Vec<TermGroup<'_>>) -> bool
    ensures same { term_groups groups.new.items ≡ term_groups groups.old.items }
    ensures none { result ≡ false → IsMissing (λ part. soonest (map (λ group. variants_skip doc.0 part group.1) (term_groups groups.old.items))) }
{
    let mut may = false;
    for number in 0..groups.len() {
        may = either(look_variants_up(doc, &mut groups[number].variants), may);
    }
    may
}
