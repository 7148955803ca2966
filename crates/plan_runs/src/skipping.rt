//! Up to where a part of a document has no span that satisfies an opened selection, since words that it needs don't stand there. A step
//! is counted for each term whose places are read.

ghost use Rattle.std.specs.Prelude.{◌≡◌, ◌≤◌, ◌+◌, cond, length, map, max, true, Some};
ghost use Rattle.std.specs.List.{sum_by};
ghost use Rattle.all_matches.specs.Compositional.{enough};
ghost use Rattle.index_versions.specs.FirstPlaces.{soonest};
ghost use Rattle.plan_runs.specs.steps.CheapShapes.{are_cheap_shapes, is_cheap_shape};
ghost use Rattle.plan_runs.specs.steps.RunCosts.{phrase_cost, run_cost, run_costs, term_count, words_cost};
ghost use Rattle.plan_runs.specs.steps.RunShapes.{phrase_shape, placed_shape, shape, shapes_of, words_shape};
ghost use Rattle.plan_runs.specs.steps.RunSkips as spec;
ghost use Rattle.plan_runs.specs.steps.RunSkips.{phrase_skip, terms_skip};
ghost use Rattle.plan_runs.specs.steps.Skips.{latest, variant_skip, vectors_skip, word_skip};

use crate::counts_skipping::counts_skip;
use crate::needed_skips::needs_skip;
use crate::occurrence_ranges::is_enough;
use crate::reading::first_in;
use crate::run_node::{RunGroup, RunNode, RunPhrase, RunWords};
use crate::run_placed::RunPlaced;
use ft_base::{DocId, Span, Steps};
use index_phrases::WordTerms;
use index_versions::{TermSources, sooner};
use std::sync::ledger::Ledger;

/// A place up to which the part of the document can be skipped: no span of the part that ends there or before it satisfies the
/// selection. 0 says nothing; `None` says that no span of the part does.
#[cycle(skipping)]
pub(crate) fn skip<L: Ledger>(
    doc: DocId,
    part: Span,
    node: &RunNode<'_>,
    moves: &mut Steps<L>,
) -> Option<u32>
    ensures says { result ≡ spec.skip doc.0 part (shape node.now) }
    ensures price { is_cheap_shape true (shape node.now) ≡ true → moves.new ≤ moves.old + run_cost term_count 1 (shape node.now) }
    ensures grown { moves.old ≤ moves.new }
{
    match node {
        RunNode::Words(words) => words_skip(doc, part, words, moves),
        RunNode::Or(nodes) => first_skip(doc, part, nodes, moves),
        RunNode::And(nodes) => last_skip(doc, part, nodes, moves),
        RunNode::Not(_node) => Some(0),
        RunNode::Ways(ways) => needs_skip(doc, part, &ways.needs, moves),
        RunNode::Near(near) => needs_skip(doc, part, &near.needs, moves),
        RunNode::Hits(hits) => needs_skip(doc, part, &hits.needs, moves),
        RunNode::Merge(merge) => merge_skip(doc, part, &merge.words, moves),
        RunNode::Placed(placed) => placed_skip(doc, part, placed, moves),
        RunNode::Counted(counts) => counts_skip(doc, part, counts, moves),
    }
}

#[cycle(skipping)]
fn first_skip<L: Ledger>(
    doc: DocId,
    part: Span,
    nodes: &Vec<RunNode<'_>>,
    moves: &mut Steps<L>,
) -> Option<u32>
    ensures says { result ≡ soonest (map (λ node. spec.skip doc.0 part (shape node)) nodes.now.items) }
    ensures price { are_cheap_shapes true (shapes_of (map shape nodes.now.items)) ≡ true
        → moves.new ≤ moves.old + run_costs term_count 1 (shapes_of (map shape nodes.now.items)) }
    ensures grown { moves.old ≤ moves.new }
{
    let mut first = None;
    for node in nodes {
        first = sooner(first, skip(doc, part, node, moves));
    }
    first
}

#[cycle(skipping)]
fn last_skip<L: Ledger>(
    doc: DocId,
    part: Span,
    nodes: &Vec<RunNode<'_>>,
    moves: &mut Steps<L>,
) -> Option<u32>
    ensures says { result ≡ latest (map (λ node. spec.skip doc.0 part (shape node)) nodes.now.items) }
    ensures price { are_cheap_shapes true (shapes_of (map shape nodes.now.items)) ≡ true
        → moves.new ≤ moves.old + run_costs term_count 1 (shapes_of (map shape nodes.now.items)) }
    ensures grown { moves.old ≤ moves.new }
{
    let mut last = 0;
    for node in nodes {
        match skip(doc, part, node, moves) {
            Some(place) => last = greater(last, place),
            None => return None,
        }
    }
    Some(last)
}

/// Nothing is known of words that don't have to occur; else all phrases have to stand there where all are wanted, or one of them.
fn words_skip<L: Ledger>(
    doc: DocId,
    part: Span,
    words: &RunWords<'_>,
    moves: &mut Steps<L>,
) -> Option<u32>
    ensures says { result ≡ cond (enough words.now.times 0) (Some 0) (cond words.now.all
        (latest (map (λ phrase. phrase_skip doc.0 part (phrase_shape phrase)) words.now.phrases.items))
        (soonest (map (λ phrase. phrase_skip doc.0 part (phrase_shape phrase)) words.now.phrases.items))) }
    ensures price { moves.new ≤ moves.old + words_cost term_count (words_shape words.now) }
    ensures grown { moves.old ≤ moves.new }
{
    if is_enough(words.times, 0) {
        return Some(0);
    }
    if words.all {
        last_phrase(doc, part, &words.phrases, moves)
    } else {
        first_phrase(doc, part, &words.phrases, moves)
    }
}

fn first_phrase<L: Ledger>(
    doc: DocId,
    part: Span,
    phrases: &Vec<RunPhrase<'_>>,
    moves: &mut Steps<L>,
) -> Option<u32>
    ensures says { result ≡ soonest (map (λ phrase. phrase_skip doc.0 part (phrase_shape phrase)) phrases.now.items) }
    ensures price { moves.new ≤ moves.old + sum_by (λ phrase. phrase_cost term_count (phrase_shape phrase)) phrases.now.items }
    ensures grown { moves.old ≤ moves.new }
{
    let mut first = None;
    for phrase in phrases {
        first = sooner(first, phrase_skip(doc, part, phrase, moves));
    }
    first
}

fn last_phrase<L: Ledger>(
    doc: DocId,
    part: Span,
    phrases: &Vec<RunPhrase<'_>>,
    moves: &mut Steps<L>,
) -> Option<u32>
    ensures says { result ≡ latest (map (λ phrase. phrase_skip doc.0 part (phrase_shape phrase)) phrases.now.items) }
    ensures price { moves.new ≤ moves.old + sum_by (λ phrase. phrase_cost term_count (phrase_shape phrase)) phrases.now.items }
    ensures grown { moves.old ≤ moves.new }
{
    let mut last = 0;
    for phrase in phrases {
        match phrase_skip(doc, part, phrase, moves) {
            Some(place) => last = greater(last, place),
            None => return None,
        }
    }
    Some(last)
}

/// One of the variants of the phrase has to stand there.
fn phrase_skip<L: Ledger>(
    doc: DocId,
    part: Span,
    phrase: &RunPhrase<'_>,
    moves: &mut Steps<L>,
) -> Option<u32>
    ensures says { result ≡ phrase_skip doc.0 part (phrase_shape phrase.now) }
    ensures price { moves.new ≤ moves.old + phrase_cost term_count (phrase_shape phrase.now) }
    ensures grown { moves.old ≤ moves.new }
{
    groups_skip(doc, part, &phrase.groups, moves)
}

fn groups_skip<L: Ledger>(
    doc: DocId,
    part: Span,
    groups: &Vec<RunGroup<'_>>,
    moves: &mut Steps<L>,
) -> Option<u32>
    ensures says { result ≡ soonest (map (λ group. vectors_skip doc.0 part group.terms.items) groups.now.items) }
    ensures price { moves.new
        ≤ moves.old + sum_by (λ group. sum_by (λ words. sum_by term_count words.items) group.terms.items) groups.now.items }
    ensures grown { moves.old ≤ moves.new }
{
    let mut first = None;
    for group in groups {
        first = sooner(first, variants_skip(doc, part, &group.terms, moves));
    }
    first
}

pub(crate) fn variants_skip<L: Ledger>(
    doc: DocId,
    part: Span,
    variants: &Vec<Vec<WordTerms<'_>>>,
    moves: &mut Steps<L>,
) -> Option<u32>
    ensures says { result ≡ vectors_skip doc.0 part variants.now.items }
    ensures price { moves.new ≤ moves.old + sum_by (λ words. sum_by term_count words.items) variants.now.items }
    ensures grown { moves.old ≤ moves.new }
{
    let mut first = None;
    for words in variants {
        first = sooner(first, variant_skip(doc, part, words, moves));
    }
    first
}

/// All words of the variant have to stand there.
fn variant_skip<L: Ledger>(
    doc: DocId,
    part: Span,
    words: &Vec<WordTerms<'_>>,
    moves: &mut Steps<L>,
) -> Option<u32>
    ensures says { result ≡ variant_skip doc.0 part words.now.items }
    ensures price { moves.new ≤ moves.old + sum_by term_count words.now.items }
    ensures grown { moves.old ≤ moves.new }
{
    let mut last = 0;
    for word in words {
        match word_skip(doc, part, word, moves) {
            Some(place) => last = greater(last, place),
            None => return None,
        }
    }
    Some(last)
}

/// One of the word's terms has to stand there. Of any word nothing is known.
fn word_skip<L: Ledger>(
    doc: DocId,
    part: Span,
    word: &WordTerms<'_>,
    moves: &mut Steps<L>,
) -> Option<u32>
    ensures says { result ≡ word_skip doc.0 part word.now }
    ensures counted { moves.new ≡ moves.old + term_count word.now }
{
    match word {
        WordTerms::Any => Some(0),
        WordTerms::Of(sources) => first_in(sources, doc, part, moves),
    }
}

/// A term of each word of the merge has to stand there.
fn merge_skip<L: Ledger>(
    doc: DocId,
    part: Span,
    words: &Vec<TermSources<'_>>,
    moves: &mut Steps<L>,
) -> Option<u32>
    ensures says { result ≡ latest (map (terms_skip doc.0 part) words.now.items) }
    ensures price { moves.new ≤ moves.old + sum_by (λ terms. length terms) words.now.items }
    ensures grown { moves.old ≤ moves.new }
{
    let mut last = 0;
    for terms in words {
        match first_in(terms, doc, part, moves) {
            Some(place) => last = greater(last, place),
            None => return None,
        }
    }
    Some(last)
}

/// The phrase that has to stand somewhere has to stand there.
fn placed_skip<L: Ledger>(
    doc: DocId,
    part: Span,
    placed: &RunPlaced<'_>,
    moves: &mut Steps<L>,
) -> Option<u32>
    ensures says { result ≡ spec.placed_skip doc.0 part (placed_shape placed.now) }
    ensures grown { moves.old ≤ moves.new }
{
    match placed {
        RunPlaced::AtEdge(phrase) => variants_skip(doc, part, &phrase.variants, moves),
        RunPlaced::Apart(phrases) => variants_skip(doc, part, &phrases.left.terms, moves),
    }
}

/// The greater of two places.
pub(crate) fn greater(one: u32, other: u32) -> u32
    ensures { result ≡ max one other }
{
    one.max(other)
}
