//! Plans opened over a version of the index.

ghost use Rattle.std.specs.Prelude.{◌≡◌, ◌<◌, ◌++◌, map, length, IfOk, None, OnOk};
ghost use Rattle.std.specs.List.{All};
ghost use Rattle.index_versions.specs.Terms.{version_term};
ghost use Rattle.index_versions.specs.Versions.{terms_of};
ghost use Rattle.plan_compiler.specs.declared.node.Node as Node;
ghost use Rattle.plan_kinds.specs.steps.MergeKinds as kinds;
ghost use Rattle.plan_runs.specs.steps.OpenedItems as items;
ghost use Rattle.plan_runs.specs.steps.OpenedWords as spec;
ghost use Rattle.index_phrases.specs.steps.Aiming.{size_of, sizes_of, variant_words, wanted_size};
ghost use Rattle.plan_runs.specs.steps.RunShapes.{group_shape, phrase_shape, shape, words_shape};

use crate::choosing::{Opening, terms_for};
use crate::opening_counts::open_counts;
use crate::opening_hits::open_hits;
use crate::opening_merges::open_merge;
use crate::opening_near::open_near;
use crate::opening_operators::open_ways;
use crate::opening_placed::{open_at_edge, open_outside};
use crate::rarity::rarest;
use crate::run_node::{RunGroup, RunNode, RunPhrase, RunWords};
use ft_base::{Items, Memory};
use index_phrases::WordTerms;
use index_versions::{TermCursor, TermSource, TermSources};
use place_merges::{Item, Variant};
use plan_compiler::{ItemTest, Node, PhrasePlan, WaysPlan, WordsPlan};
use plan_kinds::{asks_nothing, edge_of, is_near, merge_of, outside_of, pass_of};

/// The compiled selection, opened.
#[cycle(open)]
pub(crate) fn open_node<'v>(opening: &Opening<'v>, node: &Node) -> Result<RunNode<'v>, Memory>
    ensures { IfOk result (λ run. spec.IsOpened opening.now.looks opening.now.lists.now.stems opening.now.version.now (shape run) node.now) }
{
    match node {
        Node::Words(plan) => Ok(RunNode::Words(open_words(opening, plan)?)),
        Node::Or(parts) => Ok(RunNode::Or(open_all(opening, parts)?)),
        Node::And(parts) => Ok(RunNode::And(open_all(opening, parts)?)),
        Node::Not(part) => Ok(RunNode::Not(open_boxed(opening, part)?)),
        Node::Ways(plan) => open_filtered(opening, plan),
        Node::Counted(plan) => Ok(RunNode::Counted(open_counts(opening, plan)?)),
    }
}

#[cycle(open)]
fn open_boxed<'v>(opening: &Opening<'v>, node: &Box<Node>) -> Result<Box<RunNode<'v>>, Memory>
    ensures { IfOk result (λ run. spec.IsOpened opening.now.looks opening.now.lists.now.stems opening.now.version.now (shape run.value) node.now.value) }
{
    let run = open_node(opening, node)?;
    Ok(Box::new(opening.alloc, run)?)
}

#[cycle(open)]
fn open_all<'v>(opening: &Opening<'v>, parts: &Items<Node>) -> Result<Vec<RunNode<'v>>, Memory>
    ensures { IfOk result (λ runs. spec.AreOpened opening.now.looks opening.now.lists.now.stems opening.now.version.now (map shape runs.items) parts.now) }
{
    let mut runs = Vec::new(opening.alloc);
    for part in parts.as_slice() {
        runs.push(open_node(opening, part)?)?;
    }
    Ok(runs)
}

/// A filter or `not in`: a merge, where one decides it, or else what doesn't bound its moves.
fn open_filtered<'v>(opening: &Opening<'v>, plan: &WaysPlan) -> Result<RunNode<'v>, Memory>
    ensures { IfOk result (λ run. spec.IsOpened opening.now.looks opening.now.lists.now.stems opening.now.version.now (shape run) (Node.Ways plan.now)) }
{
    match merge_of(&plan.operator) {
        Some((kind, operand)) => Ok(RunNode::Merge(open_merge(opening, kind, operand)?)),
        None => open_unmerged(opening, plan),
    }
}

/// The spots of phrases or a pass through their hits, where these decide it, or else a walk through its ways.
fn open_unmerged<'v>(opening: &Opening<'v>, plan: &WaysPlan) -> Result<RunNode<'v>, Memory>
    requires { kinds.merge_of plan.now.operator ≡ None }
    ensures { IfOk result (λ run. spec.IsOpened opening.now.looks opening.now.lists.now.stems opening.now.version.now (shape run) (Node.Ways plan.now)) }
{
    if let Some((edge, phrase)) = edge_of(&plan.operator) {
        let placed = open_at_edge(opening, edge, phrase)?;
        return Ok(RunNode::Placed(placed));
    }
    if let Some((kind, left, right)) = outside_of(&plan.operator) {
        let placed = open_outside(opening, kind, left, right)?;
        return Ok(RunNode::Placed(placed));
    }
    open_passed(opening, plan)
}

/// A pass through hits or their ends, where one decides it, or else a walk through its ways.
fn open_passed<'v>(opening: &Opening<'v>, plan: &WaysPlan) -> Result<RunNode<'v>, Memory>
    requires { kinds.merge_of plan.now.operator ≡ None }
    ensures { IfOk result (λ run. spec.IsOpened opening.now.looks opening.now.lists.now.stems opening.now.version.now (shape run) (Node.Ways plan.now)) }
{
    if is_near(&plan.operator) {
        return Ok(RunNode::Near(open_near(opening, &plan.operator)?));
    }
    match pass_of(&plan.operator) {
        Some((kind, operand)) => {
            let operator = &plan.operator;
            Ok(RunNode::Hits(open_hits(opening, kind, operand, operator)?))
        }
        None => Ok(RunNode::Ways(open_ways(opening, plan)?)),
    }
}

fn open_words<'v>(opening: &Opening<'v>, plan: &WordsPlan) -> Result<RunWords<'v>, Memory>
    ensures { IfOk result (λ run. words_shape run ≡ spec.opened_words opening.now.looks opening.now.lists.now.stems opening.now.version.now plan.now) }
{
    let phrases = open_phrases(opening, plan.phrases.as_slice())?;
    Ok(RunWords {
        phrases,
        all: plan.all,
        times: plan.times,
    })
}

fn open_phrases<'v>(
    opening: &Opening<'v>,
    plans: &[PhrasePlan],
) -> Result<Vec<RunPhrase<'v>>, Memory>
    ensures { IfOk result (λ runs. map phrase_shape runs.items ≡
        map (spec.opened_phrase opening.now.looks opening.now.lists.now.stems opening.now.version.now) plans.now) }
{
    let mut runs = Vec::new(opening.alloc);
    for plan in plans {
        let groups = open_groups(opening, plan.groups.as_slice())?;
        runs.push(RunPhrase { groups })?;
    }
    Ok(runs)
}

fn open_groups<'v>(
    opening: &Opening<'v>,
    groups: &[Items<Items<ItemTest>>],
) -> Result<Vec<RunGroup<'v>>, Memory>
    ensures { IfOk result (λ runs. map group_shape runs.items ≡
        map (spec.opened_group opening.now.looks opening.now.lists.now.stems opening.now.version.now) groups.now) }
{
    let mut runs = Vec::new(opening.alloc);
    for group in groups {
        runs.push(open_group(opening, group.as_slice())?)?;
    }
    Ok(runs)
}

/// The variants, with a cursor for each of their terms.
pub(crate) fn open_group<'v>(
    opening: &Opening<'v>,
    tests: &[Items<ItemTest>],
) -> Result<RunGroup<'v>, Memory>
    ensures { IfOk result (λ run. group_shape run ≡ spec.opened_group opening.now.looks opening.now.lists.now.stems opening.now.version.now tests.now) }
{
    let terms = open_variants(opening, tests)?;
    match cursors_of_variants(opening, &terms) {
        Ok(variants) => Ok(RunGroup { terms, variants }),
        Err(memory) => {
            drop(terms);
            Err(memory)
        }
    }
}

pub(crate) fn open_variants<'v>(
    opening: &Opening<'v>,
    variants: &[Items<ItemTest>],
) -> Result<Vec<Vec<WordTerms<'v>>>, Memory>
    ensures { IfOk result (λ terms. map variant_words terms.items ≡
        map (items.opened_variant opening.now.looks opening.now.lists.now.stems opening.now.version.now) variants.now) }
{
    let mut terms = Vec::new(opening.alloc);
    for variant in variants {
        terms.push(open_items(opening, variant.as_slice())?)?;
    }
    Ok(terms)
}

pub(crate) fn open_items<'v>(
    opening: &Opening<'v>,
    tests: &[ItemTest],
) -> Result<Vec<WordTerms<'v>>, Memory>
    ensures { IfOk result (λ terms. terms.items ≡ map (items.opened_item opening.now.looks opening.now.lists.now.stems opening.now.version.now) tests.now) }
{
    let mut terms = Vec::new(opening.alloc);
    for test in tests {
        terms.push(open_item(opening, test)?)?;
    }
    Ok(terms)
}

pub(crate) fn open_item<'v>(opening: &Opening<'v>, test: &ItemTest) -> Result<WordTerms<'v>, Memory>
    ensures { IfOk result (λ terms. terms ≡ items.opened_item opening.now.looks opening.now.lists.now.stems opening.now.version.now test.now) }
{
    if asks_nothing(test) {
        return Ok(WordTerms::Any);
    }
    let numbers = terms_for(opening, test)?;
    Ok(WordTerms::Of(sources_of(opening, numbers.as_slice())?))
}

/// The terms of these numbers.
fn sources_of<'v>(opening: &Opening<'v>, numbers: &[usize]) -> Result<TermSources<'v>, Memory>
    requires { All (λ number. number < length (terms_of opening.now.version.now)) numbers.now }
    ensures { IfOk result (λ sources. sources ≡ map (version_term opening.now.version.now) numbers.now) }
{
    let mut sources = TermSources::new(opening.alloc);
    push_terms(opening, numbers, &mut sources)?;
    Ok(sources)
}

/// Puts the terms of these numbers after the others.
pub(crate) fn push_terms<'v>(
    opening: &Opening<'v>,
    numbers: &[usize],
    terms: &mut TermSources<'v>,
) -> Result<(), Memory>
    requires { All (λ number. number < length (terms_of opening.now.version.now)) numbers.now }
    ensures { OnOk result (terms.new ≡ terms.old ++ map (version_term opening.now.version.now) numbers.now) }
{
    let version = opening.version;
    for number in numbers {
        terms.push(TermSource::new(version, *number))?;
    }
    Ok(())
}

/// A cursor for each term of each word of each variant. The word that the fewest documents have leads.
pub(crate) fn cursors_of_variants<'v>(
    opening: &Opening<'v>,
    variants: &Vec<Vec<WordTerms<'v>>>,
) -> Result<Vec<Variant<TermCursor<'v>>>, Memory>
    ensures { IfOk result (λ made. map sizes_of made.items ≡ map (map wanted_size) (map variant_words variants.now.items)) }
{
    let mut made = Vec::new(opening.alloc);
    for variant in variants {
        let items = cursors_of_words(opening, variant)?;
        let lead = rarest(variant);
        made.push(Variant {
            items,
            lead,
            counts: true,
        })?;
    }
    Ok(made)
}

fn cursors_of_words<'v>(
    opening: &Opening<'v>,
    words: &Vec<WordTerms<'v>>,
) -> Result<Vec<Item<TermCursor<'v>>>, Memory>
    ensures { IfOk result (λ items. map size_of items.items ≡ map wanted_size words.now.items) }
{
    let mut items = Vec::new(opening.alloc);
    for terms in words {
        items.push(cursors_of(opening, terms)?)?;
    }
    Ok(items)
}

fn cursors_of<'v>(
    opening: &Opening<'v>,
    terms: &WordTerms<'v>,
) -> Result<Item<TermCursor<'v>>, Memory>
    ensures { IfOk result (λ item. size_of item ≡ wanted_size terms.now) }
{
    match terms {
        WordTerms::Any => Ok(Item::Any),
        WordTerms::Of(sources) => Ok(Item::Of(new_cursors(opening, sources.len())?)),
    }
}

pub(crate) fn new_cursors<'v>(
    opening: &Opening<'v>,
    count: usize,
) -> Result<Vec<TermCursor<'v>>, Memory>
    ensures { IfOk result (λ cursors. length cursors.items ≡ count) }
{
    let mut cursors = Vec::new(opening.alloc);
    for _number in 0..count {
        cursors.push(TermCursor::new())?;
    }
    Ok(cursors)
}
