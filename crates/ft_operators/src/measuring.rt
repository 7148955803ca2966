//! How many includes the ways of a node have at most, and how large an include is at most in a unit: read off the hits of its
//! phrases, each of which is looked at once.

ghost use Rattle.std.specs.Prelude.{◌≡◌};
ghost use Rattle.ft_operators.specs.Extents.{longer};
ghost use Rattle.ft_operators.specs.Standing.{frame};
ghost use Rattle.ft_operators.specs.steps.Forms.{phrase_of};
ghost use Rattle.ft_operators.specs.steps.Measuring.{AreMeasured, IsLimited, IsMeasured, IsPassed, IsTold, IsToldIn, extents_behind, extents_of_apart, extents_of_both, extents_of_either, extents_of_negated};
ghost use Rattle.ft_operators.specs.steps.Nodes.{frame_of, fork_frame, negation_frame, sieve_frame};

use crate::PhraseHits;
use crate::extent::{
    Extent, UnitExtents, extent_before, extent_behind, extent_of_both, extent_of_either,
    most_between, no_include, one_include, small,
};
use crate::node::{Fork, Negation, Node, Pair, Sieve};
use crate::rising::starts_rise;
use ft_base::{Filter, Hit, Steps, Unit};
use std::sync::ledger::Ledger;
use window_distance::{end_in, start_in};

/// What the ways of a node have, what they have before the distances inside, and what those of right sides of mild nots
/// inside have.
#[derive(Clone, Copy)]
pub(crate) struct Extents {
    pub(crate) own: Option<Extent>,
    pub(crate) inside: Option<Extent>,
    pub(crate) beside: Option<Extent>,
}

/// What is told of the ways of a node: in each unit what they have before the distances inside, and in words what those of right
/// sides of mild nots have.
#[derive(Clone, Copy)]
pub(crate) struct Told {
    pub(crate) extents: UnitExtents,
    pub(crate) beside: Option<Extent>,
}

/// What the hits of the node tell of its ways.
pub(crate) fn told_of<P: PhraseHits, L: Ledger>(node: &mut Node<P>, steps: &mut Steps<L>) -> Told
    ensures { IsTold (frame_of P.state node.old) (frame_of P.state node.new) steps.old steps.new result }
{
    let words = extents_inside(node, Unit::Words, steps);
    let sentences = told_in(node, Unit::Sentences, steps);
    let paragraphs = told_in(node, Unit::Paragraphs, steps);
    Told {
        extents: UnitExtents {
            words: words.inside,
            sentences,
            paragraphs,
        },
        beside: words.beside,
    }
}

/// What the ways have before the distances inside in the unit, where the hits begin in the order of the text there. In a text they do.
fn told_in<P: PhraseHits, L: Ledger>(
    node: &mut Node<P>,
    unit: Unit,
    steps: &mut Steps<L>,
) -> Option<Extent>
    ensures { IsToldIn unit (frame_of P.state node.old) (frame_of P.state node.new) steps.old steps.new result }
{
    let extents = extents_inside(node, unit, steps);
    let Some(extent) = extents.inside else {
        return None;
    };
    if starts_rise(node, unit, steps) {
        Some(extent)
    } else {
        None
    }
}

/// What the ways of the node have before the distances in the unit inside that are limited, and on right sides of mild nots.
/// Where there is neither nothing is said, and no hit is looked at.
fn extents_inside<P: PhraseHits, L: Ledger>(
    node: &mut Node<P>,
    unit: Unit,
    steps: &mut Steps<L>,
) -> Extents
    ensures { IsLimited unit (frame_of P.state node.old) (frame_of P.state node.new) steps.old steps.new result }
{
    if !has_limit(node, unit) {
        return Extents {
            own: None,
            inside: None,
            beside: None,
        };
    }
    measure(node, unit, steps)
}

/// Whether a distance in the unit stands inside that is limited, or, where words are asked for, a mild not.
fn has_limit<P: PhraseHits>(node: &Node<P>, unit: Unit) -> bool {
    match node {
        Node::Phrase(_) => false,
        Node::Choice(fork) => has_limit(&fork.left, unit) || has_limit(&fork.right, unit),
        Node::Both(pair) => has_limit(&pair.left, unit) || has_limit(&pair.right, unit),
        Node::MildNot(pair) => {
            unit == Unit::Words || has_limit(&pair.left, unit) || has_limit(&pair.right, unit)
        }
        Node::Negated(negation) => has_limit(&negation.operand, unit),
        Node::Filtered(sieve) => {
            most_between(unit, &sieve.kind).is_some() || has_limit(&sieve.operand, unit)
        }
    }
}

#[cycle(measure)]
fn measure<P: PhraseHits, L: Ledger>(
    node: &mut Node<P>,
    unit: Unit,
    steps: &mut Steps<L>,
) -> Extents
    ensures { IsMeasured unit (frame_of P.state node.old) (frame_of P.state node.new) steps.old steps.new result }
{
    match node {
        Node::Phrase(phrase) => measure_phrase(phrase, unit, steps),
        Node::Choice(fork) => measure_fork(fork, unit, steps),
        Node::Both(pair) => {
            let (left, right) = measure_pair(pair, unit, steps);
            extents_of_both(left, right)
        }
        Node::MildNot(pair) => {
            let (left, right) = measure_pair(pair, unit, steps);
            extents_of_apart(left, right)
        }
        Node::Negated(negation) => measure_negation(negation, unit, steps),
        Node::Filtered(sieve) => measure_sieve(sieve, unit, steps),
    }
}

#[cycle(measure)]
fn measure_fork<P: PhraseHits, L: Ledger>(
    fork: &mut Fork<P>,
    unit: Unit,
    steps: &mut Steps<L>,
) -> Extents
    ensures { IsMeasured unit (fork_frame P.state fork.old) (fork_frame P.state fork.new) steps.old steps.new result }
{
    let left = measure(&mut fork.left, unit, steps);
    let right = measure(&mut fork.right, unit, steps);
    extents_of_either(left, right)
}

#[cycle(measure)]
fn measure_pair<P: PhraseHits, L: Ledger>(
    pair: &mut Pair<P>,
    unit: Unit,
    steps: &mut Steps<L>,
) -> (Extents, Extents)
    ensures { AreMeasured unit (frame_of P.state pair.old.left) (frame_of P.state pair.new.left) (frame_of P.state pair.old.right) (frame_of P.state pair.new.right)
        steps.old steps.new result.0 result.1 }
{
    let left = measure(&mut pair.left, unit, steps);
    let right = measure(&mut pair.right, unit, steps);
    (left, right)
}

#[cycle(measure)]
fn measure_negation<P: PhraseHits, L: Ledger>(
    negation: &mut Negation<P>,
    unit: Unit,
    steps: &mut Steps<L>,
) -> Extents
    ensures { IsMeasured unit (negation_frame P.state negation.old) (negation_frame P.state negation.new) steps.old steps.new result }
{
    let operand = measure(&mut negation.operand, unit, steps);
    extents_of_negated(operand)
}

#[cycle(measure)]
fn measure_sieve<P: PhraseHits, L: Ledger>(
    sieve: &mut Sieve<P>,
    unit: Unit,
    steps: &mut Steps<L>,
) -> Extents
    ensures { IsMeasured unit (sieve_frame P.state sieve.old) (sieve_frame P.state sieve.new) steps.old steps.new result }
{
    let operand = measure(&mut sieve.operand, unit, steps);
    extents_behind(unit, &sieve.kind, operand)
}

fn extents_of_either(left: Extents, right: Extents) -> Extents
    ensures { result ≡ extents_of_either left right }
{
    Extents {
        own: extent_of_either(left.own, right.own),
        inside: extent_of_either(left.inside, right.inside),
        beside: extent_of_either(left.beside, right.beside),
    }
}

fn extents_of_both(left: Extents, right: Extents) -> Extents
    ensures { result ≡ extents_of_both left right }
{
    Extents {
        own: extent_of_both(left.own, right.own),
        inside: extent_of_either(left.inside, right.inside),
        beside: extent_of_either(left.beside, right.beside),
    }
}

fn extents_of_apart(left: Extents, right: Extents) -> Extents
    ensures { result ≡ extents_of_apart left right }
{
    Extents {
        own: left.own,
        inside: extent_of_either(left.inside, right.inside),
        beside: extent_of_either(right.own, extent_of_either(left.beside, right.beside)),
    }
}

fn extents_of_negated(operand: Extents) -> Extents
    ensures { result ≡ extents_of_negated operand }
{
    Extents {
        own: no_include(),
        ..operand
    }
}

fn extents_behind(unit: Unit, filter: &Filter, operand: Extents) -> Extents
    ensures { result ≡ extents_behind unit filter.now operand }
{
    Extents {
        own: extent_behind(unit, filter, operand.own),
        inside: extent_of_either(operand.inside, extent_before(unit, filter, operand.own)),
        beside: operand.beside,
    }
}

fn measure_phrase<P: PhraseHits, L: Ledger>(
    phrase: &mut P,
    unit: Unit,
    steps: &mut Steps<L>,
) -> Extents
    ensures { IsMeasured unit (frame (phrase_of (P.state phrase.old))) (frame (phrase_of (P.state phrase.new))) steps.old steps.new result }
{
    let size = longest(phrase, unit, steps);
    Extents {
        own: one_include(small(size)),
        inside: no_include(),
        beside: no_include(),
    }
}

/// The size of the largest hit of the phrase.
fn longest<P: PhraseHits, L: Ledger>(phrase: &mut P, unit: Unit, steps: &mut Steps<L>) -> u64
    ensures { IsPassed unit (P.state phrase.old) (P.state phrase.new) steps.old steps.new result }
{
    phrase.first(steps);
    let mut size = 0;
    while let Some(hit) = phrase.here() {
        size = longer(unit, size, &hit);
        phrase.next(steps);
    }
    size
}

/// The size of the hit, or that size if this is greater.
fn longer(unit: Unit, size: u64, hit: &Hit) -> u64
    ensures { result ≡ longer unit size hit.now }
{
    let end = u64::from(end_in(unit, hit)) + 1;
    size.max(end.saturating_sub(u64::from(start_in(unit, hit))))
}
