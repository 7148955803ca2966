//! The terms that `skip` asks for, looked up in a document, so that it finds them kept: no row is read. Each result says whether the words
//! may be there at all; where it is false, `skip` would say that nothing is left, of whatever part of the document. After words that are
//! needed and aren't there nothing is looked up.

ghost use Rattle.std.specs.Prelude.{◌≡◌, false, map};
ghost use Rattle.index_phrases.specs.steps.Aiming.{variant_words};
ghost use Rattle.index_versions.specs.FirstPlaces.{soonest, sooner};
ghost use Rattle.plan_runs.specs.steps.OpenedOperators.{aims_of};
ghost use Rattle.plan_runs.specs.steps.RuledOut.{IsMissing};
ghost use Rattle.plan_runs.specs.steps.RunShapes.{group_shape, hits_shape, merge_shape, near_shape, phrase_shape, placed_shape, shape, words_shape};
ghost use Rattle.plan_runs.specs.steps.RunSkips.{merge_skip, phrase_skip, placed_skip, skip, terms_skip, words_skip};
ghost use Rattle.plan_runs.specs.steps.Skips.{later, latest, skip_of, variant_skip, variants_skip, word_skip};

use crate::looking_counts_up::look_counts_up;
use crate::needs::{NeededSides, Needs};
use crate::occurrence_ranges::is_enough;
use crate::run_hits::RunHits;
use crate::run_merge::RunMerge;
use crate::run_near::RunNear;
use crate::run_node::{RunGroup, RunNode, RunPhrase, RunWords};
use crate::run_placed::RunPlaced;
use crate::run_ways::RunWays;
use ft_base::DocId;
use index_phrases::WordTerms;
use index_versions::TermSources;

/// Looks up what an opened selection needs.
#[cycle(looking_up)]
pub(crate) fn look_up(doc: DocId, node: &mut RunNode<'_>) -> bool
    ensures same { shape node.new ≡ shape node.old }
    ensures none { result ≡ false → IsMissing (λ part. skip doc.0 part (shape node.old)) }
{
    match node {
        RunNode::Words(words) => look_words_up(doc, words),
        RunNode::Or(parts) => look_one_up(doc, parts),
        RunNode::And(parts) => look_all_up(doc, parts),
        RunNode::Not(_part) => true,
        RunNode::Ways(ways) => look_ways_up(doc, ways),
        RunNode::Near(near) => look_near_up(doc, near),
        RunNode::Hits(hits) => look_hits_up(doc, hits),
        RunNode::Merge(merge) => look_merge_up(doc, merge),
        RunNode::Placed(placed) => look_placed_up(doc, placed),
        RunNode::Counted(counts) => look_counts_up(doc, counts),
    }
}

/// Looks up what parts need of which one is needed.
#[cycle(looking_up)]
fn look_one_up(doc: DocId, parts: &mut Vec<RunNode<'_>>) -> bool
    ensures same { map shape parts.new.items ≡ map shape parts.old.items }
    ensures none { result ≡ false → IsMissing (λ part. soonest (map (skip doc.0 part) (map shape parts.old.items))) }
{
    let mut may = false;
    for number in 0..parts.len() {
        may = either(look_up(doc, &mut parts[number]), may);
    }
    may
}

/// Looks up what parts need that are all needed.
#[cycle(looking_up)]
fn look_all_up(doc: DocId, parts: &mut Vec<RunNode<'_>>) -> bool
    ensures same { map shape parts.new.items ≡ map shape parts.old.items }
    ensures none { result ≡ false → IsMissing (λ part. latest (map (skip doc.0 part) (map shape parts.old.items))) }
{
    for number in 0..parts.len() {
        if !look_up(doc, &mut parts[number]) {
            return false;
        }
    }
    true
}

/// Whether one of two is true.
pub(crate) fn either(one: bool, other: bool) -> bool
    ensures one { result ≡ false → one ≡ false }
    ensures other { result ≡ false → other ≡ false }
{
    one || other
}

/// Nothing is needed where the words don't have to occur.
fn look_words_up(doc: DocId, words: &mut RunWords<'_>) -> bool
    ensures same { words_shape words.new ≡ words_shape words.old }
    ensures none { result ≡ false → IsMissing (λ part. words_skip doc.0 part (words_shape words.old)) }
{
    if is_enough(words.times, 0) {
        return true;
    }
    if words.all {
        look_all_phrases_up(doc, &mut words.phrases)
    } else {
        look_one_phrase_up(doc, &mut words.phrases)
    }
}

/// Looks up phrases of which one is needed.
fn look_one_phrase_up(doc: DocId, phrases: &mut Vec<RunPhrase<'_>>) -> bool
    ensures same { map phrase_shape phrases.new.items ≡ map phrase_shape phrases.old.items }
    ensures none { result ≡ false → IsMissing (λ part. soonest (map (phrase_skip doc.0 part) (map phrase_shape phrases.old.items))) }
{
    let mut may = false;
    for number in 0..phrases.len() {
        may = either(look_groups_up(doc, &mut phrases[number].groups), may);
    }
    may
}

/// Looks up phrases that are all needed.
fn look_all_phrases_up(doc: DocId, phrases: &mut Vec<RunPhrase<'_>>) -> bool
    ensures same { map phrase_shape phrases.new.items ≡ map phrase_shape phrases.old.items }
    ensures none { result ≡ false → IsMissing (λ part. latest (map (phrase_skip doc.0 part) (map phrase_shape phrases.old.items))) }
{
    for number in 0..phrases.len() {
        if !look_groups_up(doc, &mut phrases[number].groups) {
            return false;
        }
    }
    true
}

fn look_groups_up(doc: DocId, groups: &mut Vec<RunGroup<'_>>) -> bool
    ensures same { map group_shape groups.new.items ≡ map group_shape groups.old.items }
    ensures none { result ≡ false → IsMissing (λ part. phrase_skip doc.0 part (map group_shape groups.old.items)) }
{
    let mut may = false;
    for number in 0..groups.len() {
        may = either(look_variants_up(doc, &mut groups[number].terms), may);
    }
    may
}

pub(crate) fn look_variants_up(doc: DocId, variants: &mut Vec<Vec<WordTerms<'_>>>) -> bool
    ensures same { map variant_words variants.new.items ≡ map variant_words variants.old.items }
    ensures none { result ≡ false → IsMissing (λ part. variants_skip doc.0 part (map variant_words variants.old.items)) }
{
    let mut may = false;
    for number in 0..variants.len() {
        may = either(look_variant_up(doc, &mut variants[number]), may);
    }
    may
}

/// Looks up words that are all needed.
fn look_variant_up(doc: DocId, words: &mut Vec<WordTerms<'_>>) -> bool
    ensures same { words.new.items ≡ words.old.items }
    ensures none { result ≡ false → IsMissing (λ part. variant_skip doc.0 part words.old.items) }
{
    for number in 0..words.len() {
        if !look_word_up(doc, &mut words[number]) {
            return false;
        }
    }
    true
}

fn look_word_up(doc: DocId, word: &mut WordTerms<'_>) -> bool
    ensures same { word.new ≡ word.old }
    ensures none { result ≡ false → IsMissing (λ part. word_skip doc.0 part word.old) }
{
    match word {
        WordTerms::Any => true,
        WordTerms::Of(sources) => look_term_up(doc, sources),
    }
}

/// Looks up terms of which one is needed.
fn look_term_up(doc: DocId, terms: &mut TermSources<'_>) -> bool
    ensures same { terms.new ≡ terms.old }
    ensures none { result ≡ false → IsMissing (λ part. terms_skip doc.0 part terms.old) }
{
    terms.look_up(doc)
}

fn look_ways_up(doc: DocId, ways: &mut Box<RunWays<'_>>) -> bool
    ensures aims { aims_of ways.new.value.tuples ≡ aims_of ways.old.value.tuples }
    ensures needs { skip_of ways.new.value.needs ≡ skip_of ways.old.value.needs }
    ensures none { result ≡ false → IsMissing (skip_of ways.old.value.needs doc.0) }
{
    look_needs_up(doc, &mut ways.needs)
}

fn look_near_up(doc: DocId, near: &mut Box<RunNear<'_>>) -> bool
    ensures same { near_shape near.new.value ≡ near_shape near.old.value }
    ensures none { result ≡ false → IsMissing (skip_of near.old.value.needs doc.0) }
{
    look_needs_up(doc, &mut near.needs)
}

fn look_hits_up(doc: DocId, hits: &mut Box<RunHits<'_>>) -> bool
    ensures same { hits_shape hits.new.value ≡ hits_shape hits.old.value }
    ensures none { result ≡ false → IsMissing (skip_of hits.old.value.needs doc.0) }
{
    look_needs_up(doc, &mut hits.needs)
}

/// Looks up the phrase that has to stand somewhere.
fn look_placed_up(doc: DocId, placed: &mut RunPlaced<'_>) -> bool
    ensures same { placed_shape placed.new ≡ placed_shape placed.old }
    ensures none { result ≡ false → IsMissing (λ part. placed_skip doc.0 part (placed_shape placed.old)) }
{
    match placed {
        RunPlaced::AtEdge(phrase) => look_variants_up(doc, &mut phrase.variants),
        RunPlaced::Apart(phrases) => look_variants_up(doc, &mut phrases.left.terms),
    }
}

fn look_merge_up(doc: DocId, merge: &mut RunMerge<'_>) -> bool
    ensures same { merge_shape merge.new ≡ merge_shape merge.old }
    ensures none { result ≡ false → IsMissing (λ part. merge_skip doc.0 part (merge_shape merge.old)) }
{
    look_terms_up(doc, &mut merge.words)
}

/// Looks up the terms of words that are all needed.
fn look_terms_up(doc: DocId, words: &mut Vec<TermSources<'_>>) -> bool
    ensures same { words.new.items ≡ words.old.items }
    ensures none { result ≡ false → IsMissing (λ part. latest (map (terms_skip doc.0 part) words.old.items)) }
{
    for number in 0..words.len() {
        if !look_term_up(doc, &mut words[number]) {
            return false;
        }
    }
    true
}

/// Looks up what a selection with filters or `not in` needs.
#[cycle(looking_needs_up)]
fn look_needs_up(doc: DocId, needs: &mut Needs<'_>) -> bool
    ensures same { skip_of needs.new ≡ skip_of needs.old }
    ensures none { result ≡ false → IsMissing (skip_of needs.old doc.0) }
{
    match needs {
        Needs::Nothing => true,
        Needs::Phrase(variants) => look_variants_up(doc, variants),
        Needs::OneOf(sides) => look_either_up(doc, sides),
        Needs::AllOf(sides) => look_both_up(doc, sides),
    }
}

/// Looks up what sides need of which one is needed.
#[cycle(looking_needs_up)]
fn look_either_up(doc: DocId, sides: &mut NeededSides<'_>) -> bool
    ensures left { skip_of sides.new.left ≡ skip_of sides.old.left }
    ensures right { skip_of sides.new.right ≡ skip_of sides.old.right }
    ensures none { result ≡ false → IsMissing (λ part. sooner (skip_of sides.old.left doc.0 part) (skip_of sides.old.right doc.0 part)) }
{
    let left = look_needs_up(doc, &mut sides.left);
    let right = look_needs_up(doc, &mut sides.right);
    either(left, right)
}

/// Looks up what sides need that are both needed.
#[cycle(looking_needs_up)]
fn look_both_up(doc: DocId, sides: &mut NeededSides<'_>) -> bool
    ensures left { skip_of sides.new.left ≡ skip_of sides.old.left }
    ensures right { skip_of sides.new.right ≡ skip_of sides.old.right }
    ensures none { result ≡ false → IsMissing (λ part. later (skip_of sides.old.left doc.0 part) (skip_of sides.old.right doc.0 part)) }
{
    let left = look_needs_up(doc, &mut sides.left);
    if !left {
        return false;
    }
    look_needs_up(doc, &mut sides.right)
}
