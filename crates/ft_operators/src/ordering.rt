//! Whether the ways of a node come in the order of their includes: read off the hits of its phrases, each of which is looked at once.

ghost use Rattle.std.specs.Prelude.{◌≡◌};
ghost use Rattle.ft_operators.specs.Ordered as spec;
ghost use Rattle.ft_operators.specs.Standing.{frame};
ghost use Rattle.ft_operators.specs.steps.Forms.{phrase_of};
ghost use Rattle.ft_operators.specs.steps.Nodes.{apart_pair_frame, both_pair_frame, frame_of, sieve_frame};
ghost use Rattle.ft_operators.specs.steps.Ordering.{IsOrdered, IsRising};

use crate::PhraseHits;
use crate::comparing::is_earlier;
use crate::node::{Node, Pair, Sieve};
use ft_base::{Filter, Hit, Steps};
use std::sync::ledger::Ledger;

/// Whether the ways of the node come in the order of their includes, by their places: one hit of each of some phrases is chosen, whose
/// hits rise, and no filter joins them.
#[cycle(order)]
pub(crate) fn comes_in_order<P: PhraseHits, L: Ledger>(
    node: &mut Node<P>,
    steps: &mut Steps<L>,
) -> bool
    ensures { IsOrdered (frame_of P.state node.old) (frame_of P.state node.new) steps.old steps.new result }
{
    match node {
        Node::Phrase(phrase) => phrase_in_order(phrase, steps),
        Node::Choice(_) => false,
        Node::Both(pair) => both_in_order(pair, steps),
        Node::MildNot(pair) => apart_in_order(pair, steps),
        Node::Negated(_) => true,
        Node::Filtered(sieve) => sieve_in_order(sieve, steps),
    }
}

#[cycle(order)]
fn both_in_order<P: PhraseHits, L: Ledger>(pair: &mut Pair<P>, steps: &mut Steps<L>) -> bool
    ensures { IsOrdered (both_pair_frame P.state pair.old) (both_pair_frame P.state pair.new) steps.old steps.new result }
{
    comes_in_order(&mut pair.left, steps) && comes_in_order(&mut pair.right, steps)
}

#[cycle(order)]
fn apart_in_order<P: PhraseHits, L: Ledger>(pair: &mut Pair<P>, steps: &mut Steps<L>) -> bool
    ensures { IsOrdered (apart_pair_frame P.state pair.old) (apart_pair_frame P.state pair.new) steps.old steps.new result }
{
    comes_in_order(&mut pair.left, steps)
}

#[cycle(order)]
fn sieve_in_order<P: PhraseHits, L: Ledger>(sieve: &mut Sieve<P>, steps: &mut Steps<L>) -> bool
    ensures { IsOrdered (sieve_frame P.state sieve.old) (sieve_frame P.state sieve.new) steps.old steps.new result }
{
    leaves_includes(&sieve.kind) && comes_in_order(&mut sieve.operand, steps)
}

/// Whether the includes after the filter are those before it.
fn leaves_includes(kind: &Filter) -> bool
    ensures { result ≡ spec.leaves_includes kind.now }
{
    match kind {
        Filter::Window(_, _) => false,
        Filter::Distance(_, _) => false,
        Filter::Ordered => true,
        Filter::SameSentence => true,
        Filter::SameParagraph => true,
        Filter::DifferentSentence => true,
        Filter::DifferentParagraph => true,
        Filter::AtStart => true,
        Filter::AtEnd => true,
        Filter::EntireContent => true,
    }
}

fn phrase_in_order<P: PhraseHits, L: Ledger>(phrase: &mut P, steps: &mut Steps<L>) -> bool
    ensures { IsOrdered (frame (phrase_of (P.state phrase.old))) (frame (phrase_of (P.state phrase.new))) steps.old steps.new result }
{
    hits_rise(phrase, steps)
}

/// Whether each hit of the phrase stands after the one before it.
fn hits_rise<P: PhraseHits, L: Ledger>(phrase: &mut P, steps: &mut Steps<L>) -> bool
    ensures { IsRising (P.state phrase.old) (P.state phrase.new) steps.old steps.new result }
{
    phrase.first(steps);
    let mut last = None;
    while let Some(hit) = phrase.here() {
        if !is_after(&last, &hit) {
            return false;
        }
        last = Some(hit);
        phrase.next(steps);
    }
    true
}

/// Whether the hit stands after the last one, if there is one.
fn is_after(last: &Option<Hit>, hit: &Hit) -> bool
    ensures { result ≡ spec.is_after last.now hit.now }
{
    match last {
        None => true,
        Some(last) => is_earlier(last, hit),
    }
}
