//! Whether the hits of a node's phrases begin in the order of their sentences or paragraphs, as those of a text do: read off all of
//! them, in the order of the text.

ghost use Rattle.std.specs.Prelude.{◌≡◌};
ghost use Rattle.ft_operators.specs.steps.Rising.{AreBack, ArePast, IsBack, IsLeast, IsPast, IsRisen, begins_at, earlier, is_later, left_of, left_of_phrase, start_of};

use crate::PhraseHits;
use crate::node::{Fork, Negation, Node, Pair, Sieve};
use ft_base::{Hit, Steps, Unit};
use std::sync::ledger::Ledger;
use window_distance::start_in;

/// A word, and a number of a sentence or paragraph.
#[derive(Clone, Copy)]
pub(crate) struct Start {
    pub(crate) word: u32,
    pub(crate) number: u32,
}

/// Whether of every two hits of the node's phrases the one that begins no later in words begins no later in the unit. Each hit is passed
/// once.
pub(crate) fn starts_rise<P: PhraseHits, L: Ledger>(
    node: &mut Node<P>,
    unit: Unit,
    steps: &mut Steps<L>,
) -> bool
    ensures { IsRisen unit (left_of P.state node.old) (left_of P.state node.new) steps.old steps.new result }
{
    go_back(node, steps);
    let mut last = Start { word: 0, number: 0 };
    while let Some(start) = least_start(node, unit) {
        if !is_later(&last, &start) || !pass(node, unit, start, steps) {
            return false;
        }
        last = start;
    }
    true
}

/// Goes to the first hit of each phrase.
#[cycle(back)]
fn go_back<P: PhraseHits, L: Ledger>(node: &mut Node<P>, steps: &mut Steps<L>)
    ensures { IsBack (left_of P.state node.old) (left_of P.state node.new) steps.old steps.new }
{
    match node {
        Node::Phrase(phrase) => phrase.first(steps),
        Node::Choice(fork) => fork_back(fork, steps),
        Node::Both(pair) => pair_back(pair, steps),
        Node::MildNot(pair) => pair_back(pair, steps),
        Node::Negated(negation) => negation_back(negation, steps),
        Node::Filtered(sieve) => sieve_back(sieve, steps),
    }
}

#[cycle(back)]
fn fork_back<P: PhraseHits, L: Ledger>(fork: &mut Fork<P>, steps: &mut Steps<L>)
    ensures { AreBack (left_of P.state fork.old.left) (left_of P.state fork.new.left) (left_of P.state fork.old.right) (left_of P.state fork.new.right)
        steps.old steps.new }
{
    go_back(&mut fork.left, steps);
    go_back(&mut fork.right, steps);
}

#[cycle(back)]
fn pair_back<P: PhraseHits, L: Ledger>(pair: &mut Pair<P>, steps: &mut Steps<L>)
    ensures { AreBack (left_of P.state pair.old.left) (left_of P.state pair.new.left) (left_of P.state pair.old.right) (left_of P.state pair.new.right)
        steps.old steps.new }
{
    go_back(&mut pair.left, steps);
    go_back(&mut pair.right, steps);
}

#[cycle(back)]
fn negation_back<P: PhraseHits, L: Ledger>(negation: &mut Negation<P>, steps: &mut Steps<L>)
    ensures { IsBack (left_of P.state negation.old.operand) (left_of P.state negation.new.operand) steps.old steps.new }
{
    go_back(&mut negation.operand, steps);
}

#[cycle(back)]
fn sieve_back<P: PhraseHits, L: Ledger>(sieve: &mut Sieve<P>, steps: &mut Steps<L>)
    ensures same { sieve.new.kind ≡ sieve.old.kind }
    ensures back { IsBack (left_of P.state sieve.old.operand) (left_of P.state sieve.new.operand) steps.old steps.new }
{
    go_back(&mut sieve.operand, steps);
}

/// The start of the hit, of those at which the phrases are, that begins first in the text.
fn least_start<P: PhraseHits>(node: &Node<P>, unit: Unit) -> Option<Start>
    ensures { IsLeast (left_of P.state node.now) result }
{
    match node {
        Node::Phrase(phrase) => phrase_start(phrase, unit),
        Node::Choice(fork) => earlier(
            least_start(&fork.left, unit),
            least_start(&fork.right, unit),
        ),
        Node::Both(pair) => earlier(
            least_start(&pair.left, unit),
            least_start(&pair.right, unit),
        ),
        Node::MildNot(pair) => earlier(
            least_start(&pair.left, unit),
            least_start(&pair.right, unit),
        ),
        Node::Negated(negation) => least_start(&negation.operand, unit),
        Node::Filtered(sieve) => least_start(&sieve.operand, unit),
    }
}

fn phrase_start<P: PhraseHits>(phrase: &P, unit: Unit) -> Option<Start>
    ensures { IsLeast (left_of_phrase (P.state phrase.now)) result }
{
    match phrase.here() {
        None => None,
        Some(hit) => Some(start_of(unit, &hit)),
    }
}

fn earlier(left: Option<Start>, right: Option<Start>) -> Option<Start>
    ensures { result ≡ earlier left right }
{
    let Some(first) = left else { return right };
    let Some(second) = right else { return left };
    if second.word < first.word {
        right
    } else {
        left
    }
}

fn start_of(unit: Unit, hit: &Hit) -> Start
    ensures { result ≡ start_of unit hit.now }
{
    Start {
        word: hit.from,
        number: start_in(unit, hit),
    }
}

/// Whether the start stands after the last one in words, and not before it in the unit.
fn is_later(last: &Start, start: &Start) -> bool
    ensures { result ≡ is_later last.now start.now }
{
    last.word < start.word && last.number <= start.number
}

/// Goes past the hits that begin there, as far as the phrases are at such. Says whether some are.
#[cycle(past)]
fn pass<P: PhraseHits, L: Ledger>(
    node: &mut Node<P>,
    unit: Unit,
    start: Start,
    steps: &mut Steps<L>,
) -> bool
    ensures { IsPast unit start (left_of P.state node.old) (left_of P.state node.new) steps.old steps.new result }
{
    match node {
        Node::Phrase(phrase) => pass_phrase(phrase, unit, start, steps),
        Node::Choice(fork) => pass_fork(fork, unit, start, steps),
        Node::Both(pair) => pass_pair(pair, unit, start, steps),
        Node::MildNot(pair) => pass_pair(pair, unit, start, steps),
        Node::Negated(negation) => pass_negation(negation, unit, start, steps),
        Node::Filtered(sieve) => pass_sieve(sieve, unit, start, steps),
    }
}

#[cycle(past)]
fn pass_fork<P: PhraseHits, L: Ledger>(
    fork: &mut Fork<P>,
    unit: Unit,
    start: Start,
    steps: &mut Steps<L>,
) -> bool
    ensures { ArePast unit start (left_of P.state fork.old.left) (left_of P.state fork.new.left) (left_of P.state fork.old.right) (left_of P.state fork.new.right)
        steps.old steps.new result }
{
    let left = pass(&mut fork.left, unit, start, steps);
    let right = pass(&mut fork.right, unit, start, steps);
    left || right
}

#[cycle(past)]
fn pass_pair<P: PhraseHits, L: Ledger>(
    pair: &mut Pair<P>,
    unit: Unit,
    start: Start,
    steps: &mut Steps<L>,
) -> bool
    ensures { ArePast unit start (left_of P.state pair.old.left) (left_of P.state pair.new.left) (left_of P.state pair.old.right) (left_of P.state pair.new.right)
        steps.old steps.new result }
{
    let left = pass(&mut pair.left, unit, start, steps);
    let right = pass(&mut pair.right, unit, start, steps);
    left || right
}

#[cycle(past)]
fn pass_negation<P: PhraseHits, L: Ledger>(
    negation: &mut Negation<P>,
    unit: Unit,
    start: Start,
    steps: &mut Steps<L>,
) -> bool
    ensures { IsPast unit start (left_of P.state negation.old.operand) (left_of P.state negation.new.operand) steps.old steps.new result }
{
    pass(&mut negation.operand, unit, start, steps)
}

#[cycle(past)]
fn pass_sieve<P: PhraseHits, L: Ledger>(
    sieve: &mut Sieve<P>,
    unit: Unit,
    start: Start,
    steps: &mut Steps<L>,
) -> bool
    ensures same { sieve.new.kind ≡ sieve.old.kind }
    ensures past { IsPast unit start (left_of P.state sieve.old.operand) (left_of P.state sieve.new.operand) steps.old steps.new result }
{
    pass(&mut sieve.operand, unit, start, steps)
}

fn pass_phrase<P: PhraseHits, L: Ledger>(
    phrase: &mut P,
    unit: Unit,
    start: Start,
    steps: &mut Steps<L>,
) -> bool
    ensures { IsPast unit start (left_of_phrase (P.state phrase.old)) (left_of_phrase (P.state phrase.new)) steps.old steps.new result }
{
    let mut moved = false;
    while let Some(hit) = phrase.here() {
        if !begins_at(unit, start, &hit) {
            return moved;
        }
        moved = true;
        phrase.next(steps);
    }
    moved
}

fn begins_at(unit: Unit, start: Start, hit: &Hit) -> bool
    ensures { result ≡ begins_at unit start hit.now }
{
    hit.from == start.word && start_in(unit, hit) == start.number
}
