//! Up to where a part of a document has no span in which words occur as often as it is asked for, since an item of which a hit is needed has
//! none there. A step is counted for each term whose places are read.

ghost use Rattle.std.specs.Prelude.{◌≡◌, ◌≤◌, ◌+◌, map};
ghost use Rattle.std.specs.List.{sum_by};
ghost use Rattle.index_versions.specs.FirstPlaces.{soonest};
ghost use Rattle.plan_runs.specs.steps.Counts.{counts_cost, item_cost};
ghost use Rattle.plan_runs.specs.steps.RunCosts.{term_count};
ghost use Rattle.plan_runs.specs.steps.RunShapes.{counts_shape, term_counts};
ghost use Rattle.plan_runs.specs.steps.RunSkips as spec;
ghost use Rattle.plan_runs.specs.steps.Skips.{latest, vectors_skip};

use crate::run_counts::{CountedTerms, RunCounts, TermGroup};
use crate::skipping::{greater, variants_skip};
use ft_base::{DocId, Span, Steps};
use index_versions::sooner;
use std::sync::ledger::Ledger;

/// Each item has to have what it asks for there.
pub(crate) fn counts_skip<L: Ledger>(
    doc: DocId,
    part: Span,
    counts: &RunCounts<'_>,
    moves: &mut Steps<L>,
) -> Option<u32>
    ensures says { result ≡ spec.counts_skip doc.0 part (counts_shape counts.now) }
    ensures price { moves.new ≤ moves.old + counts_cost term_count (counts_shape counts.now) }
    ensures grown { moves.old ≤ moves.new }
{
    items_skip(doc, part, &counts.words, moves)
}

fn items_skip<L: Ledger>(
    doc: DocId,
    part: Span,
    items: &Vec<CountedTerms<'_>>,
    moves: &mut Steps<L>,
) -> Option<u32>
    ensures says { result ≡ latest (map (λ item. spec.item_skip doc.0 part (term_counts item)) items.now.items) }
    ensures price { moves.new ≤ moves.old + sum_by (λ item. item_cost term_count (term_counts item)) items.now.items }
    ensures grown { moves.old ≤ moves.new }
{
    let mut last = 0;
    for item in items {
        match item_skip(doc, part, item, moves) {
            Some(place) => last = greater(last, place),
            None => return None,
        }
    }
    Some(last)
}

/// One of the variants has to stand there where a hit is asked for.
fn item_skip<L: Ledger>(
    doc: DocId,
    part: Span,
    item: &CountedTerms<'_>,
    moves: &mut Steps<L>,
) -> Option<u32>
    ensures says { result ≡ spec.item_skip doc.0 part (term_counts item.now) }
    ensures price { moves.new ≤ moves.old + item_cost term_count (term_counts item.now) }
    ensures grown { moves.old ≤ moves.new }
{
    if item.least == 0 {
        return Some(0);
    }
    groups_skip(doc, part, &item.groups, moves)
}

fn groups_skip<L: Ledger>(
    doc: DocId,
    part: Span,
    groups: &Vec<TermGroup<'_>>,
    moves: &mut Steps<L>,
) -> Option<u32>
    ensures says { result ≡ soonest (map (λ group. vectors_skip doc.0 part group.variants.items) groups.now.items) }
    ensures price { moves.new
        ≤ moves.old + sum_by (λ group. sum_by (λ words. sum_by term_count words.items) group.variants.items) groups.now.items }
    ensures grown { moves.old ≤ moves.new }
{
    let mut first = None;
    for group in groups {
        first = sooner(first, variants_skip(doc, part, &group.variants, moves));
    }
    first
}
