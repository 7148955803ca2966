//! Words that are counted in one window, sentence or paragraph, opened over a version of the index.

ghost use Rattle.std.specs.Prelude.{◌≡◌, ◌++◌, ◌∷◌, [], flat_map, map, IfOk, OnOk};
ghost use Rattle.all_matches.specs.Counting.{by_length, with_variant};
ghost use Rattle.index_phrases.specs.steps.Aiming.{variant_words};
ghost use Rattle.plan_runs.specs.steps.Counts as spec;
ghost use Rattle.plan_runs.specs.steps.RunShapes.{back_sizes, counts_shape, front_sizes, item_backs, item_bounds, item_fronts, term_counts, term_groups};

use crate::choosing::Opening;
use crate::opening::{cursors_of_variants, open_variants};
use crate::run_counts::{CountedTerms, RunCounts, TermGroup};
use count_merges::{CountedItem, VariantGroup};
use ft_base::Memory;
use index_phrases::WordTerms;
use index_versions::TermCursor;
use plan_compiler::{CountedPlan, CountedWords, PhraseTests};
use std::mem::drop;

/// The words opened to be counted in their field.
pub(crate) fn open_counts<'v>(
    opening: &Opening<'v>,
    plan: &CountedPlan,
) -> Result<RunCounts<'v>, Memory>
    ensures { IfOk result (λ run. counts_shape run
        ≡ spec.opened_counts opening.now.looks opening.now.lists.now.stems opening.now.version.now plan.now) }
{
    let words = open_items(opening, plan.items.as_slice())?;
    match items_of(opening, &words) {
        Ok(items) => Ok(RunCounts {
            field: plan.field,
            words,
            items,
        }),
        Err(memory) => {
            drop(words);
            Err(memory)
        }
    }
}

fn open_items<'v>(
    opening: &Opening<'v>,
    items: &[CountedWords],
) -> Result<Vec<CountedTerms<'v>>, Memory>
    ensures { IfOk result (λ words. map term_counts words.items
        ≡ map (spec.opened_count opening.now.looks opening.now.lists.now.stems opening.now.version.now) items.now) }
{
    let mut words = Vec::new(opening.alloc);
    for item in items {
        let groups = open_phrases(opening, item.phrases.as_slice())?;
        words.push(CountedTerms {
            least: item.least,
            most: item.most,
            groups,
        })?;
    }
    Ok(words)
}

/// The groups of all phrases, one phrase after the other.
fn open_phrases<'v>(
    opening: &Opening<'v>,
    phrases: &[PhraseTests],
) -> Result<Vec<TermGroup<'v>>, Memory>
    ensures { IfOk result (λ groups. term_groups groups.items
        ≡ flat_map (spec.opened_groups opening.now.looks opening.now.lists.now.stems opening.now.version.now) phrases.now) }
{
    let mut groups = Vec::new(opening.alloc);
    for phrase in phrases {
        let variants = open_variants(opening, phrase.variants.as_slice())?;
        push_groups(grouped(opening, variants)?, &mut groups)?;
    }
    Ok(groups)
}

fn push_groups<'v>(groups: Vec<TermGroup<'v>>, all: &mut Vec<TermGroup<'v>>) -> Result<(), Memory>
    ensures { OnOk result (term_groups all.new.items ≡ term_groups all.old.items ++ term_groups groups.entry.items) }
{
    for group in groups {
        all.push(group)?;
    }
    Ok(())
}

/// The variants, those of one length together.
fn grouped<'v>(
    opening: &Opening<'v>,
    variants: Vec<Vec<WordTerms<'v>>>,
) -> Result<Vec<TermGroup<'v>>, Memory>
    ensures { IfOk result (λ groups. term_groups groups.items ≡ by_length (map variant_words variants.entry.items)) }
{
    let mut groups = Vec::new(opening.alloc);
    for variant in variants {
        put_variant(opening, variant, &mut groups)?;
    }
    Ok(groups)
}

/// Puts the variant to those of its length. One without words stands nowhere.
fn put_variant<'v>(
    opening: &Opening<'v>,
    variant: Vec<WordTerms<'v>>,
    groups: &mut Vec<TermGroup<'v>>,
) -> Result<(), Memory>
    ensures { OnOk result (term_groups groups.new.items ≡ with_variant (term_groups groups.old.items) variant.entry.items) }
{
    let words = variant.len();
    if words == 0 {
        return Ok(());
    }
    for number in 0..groups.len() {
        if groups[number].words as usize == words {
            groups[number].variants.push(variant)?;
            return Ok(());
        }
    }
    match u32::try_from(words) {
        Ok(words) => push_group(opening, words, variant, groups),
        Err(_too_many) => Err(Memory),
    }
}

fn push_group<'v>(
    opening: &Opening<'v>,
    words: u32,
    variant: Vec<WordTerms<'v>>,
    groups: &mut Vec<TermGroup<'v>>,
) -> Result<(), Memory>
    ensures { OnOk result (term_groups groups.new.items ≡ term_groups groups.old.items ++ (words, variant.entry.items ∷ []) ∷ []) }
{
    let mut variants = Vec::new(opening.alloc);
    variants.push(variant)?;
    groups.push(TermGroup { words, variants })?;
    Ok(())
}

/// The items with two cursors for each term.
fn items_of<'v>(
    opening: &Opening<'v>,
    words: &Vec<CountedTerms<'v>>,
) -> Result<Vec<CountedItem<TermCursor<'v>>>, Memory>
    ensures bounds { IfOk result (λ items. map item_bounds items.items ≡ map (λ item. (item.least, item.most)) (map term_counts words.now.items)) }
    ensures fronts { IfOk result (λ items. map item_fronts items.items ≡ map (λ item. spec.group_sizes item.groups) (map term_counts words.now.items)) }
    ensures backs { IfOk result (λ items. map item_backs items.items ≡ map (λ item. spec.group_sizes item.groups) (map term_counts words.now.items)) }
{
    let mut items = Vec::new(opening.alloc);
    for item in words {
        items.push(CountedItem {
            least: item.least,
            most: item.most,
            groups: groups_of(opening, &item.groups)?,
        })?;
    }
    Ok(items)
}

fn groups_of<'v>(
    opening: &Opening<'v>,
    terms: &Vec<TermGroup<'v>>,
) -> Result<Vec<VariantGroup<TermCursor<'v>>>, Memory>
    ensures fronts { IfOk result (λ groups. front_sizes groups.items ≡ spec.group_sizes (term_groups terms.now.items)) }
    ensures backs { IfOk result (λ groups. back_sizes groups.items ≡ spec.group_sizes (term_groups terms.now.items)) }
{
    let mut groups = Vec::new(opening.alloc);
    for group in terms {
        let front = cursors_of_variants(opening, &group.variants)?;
        match cursors_of_variants(opening, &group.variants) {
            Ok(back) => groups.push(VariantGroup::new(group.words, front, back))?,
            Err(memory) => {
                drop(front);
                return Err(memory);
            }
        }
    }
    Ok(groups)
}
