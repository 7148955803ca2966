//! Aiming the phrases of a node at a span of a document.

ghost use Rattle.std.specs.Prelude.{◌≡◌, true};
ghost use Rattle.ft_operators.specs.steps.Nodes.{frame_of, fork_frame, negation_frame, sieve_frame};
ghost use Rattle.ft_operators.specs.steps.Walking.{AreAimed, IsAimed};

use crate::PhraseHits;
use crate::node::{Fork, Negation, Node, Pair, Sieve};
use ft_base::{DocId, Span, Steps};
use std::sync::ledger::Ledger;

/// Aims the phrases of the node at the span of the document.
#[cycle(aim)]
pub(crate) fn aim_node<P: PhraseHits, L: Ledger>(
    node: &mut Node<P>,
    doc: DocId,
    span: Span,
    steps: &mut Steps<L>,
)
    requires { (frame_of P.state node.old).aims.may doc.0 span ≡ true }
    ensures { IsAimed doc.0 span (frame_of P.state node.old) (frame_of P.state node.new) steps.old steps.new }
{
    match node {
        Node::Phrase(phrase) => phrase.aim(doc, span, steps),
        Node::Choice(fork) => aim_fork(fork, doc, span, steps),
        Node::Both(pair) => aim_pair(pair, doc, span, steps),
        Node::MildNot(pair) => aim_pair(pair, doc, span, steps),
        Node::Negated(negation) => aim_negation(negation, doc, span, steps),
        Node::Filtered(sieve) => aim_sieve(sieve, doc, span, steps),
    }
}

#[cycle(aim)]
fn aim_fork<P: PhraseHits, L: Ledger>(
    fork: &mut Fork<P>,
    doc: DocId,
    span: Span,
    steps: &mut Steps<L>,
)
    requires { (fork_frame P.state fork.old).aims.may doc.0 span ≡ true }
    ensures { IsAimed doc.0 span (fork_frame P.state fork.old) (fork_frame P.state fork.new) steps.old steps.new }
{
    aim_node(&mut fork.left, doc, span, steps);
    aim_node(&mut fork.right, doc, span, steps);
}

#[cycle(aim)]
fn aim_pair<P: PhraseHits, L: Ledger>(
    pair: &mut Pair<P>,
    doc: DocId,
    span: Span,
    steps: &mut Steps<L>,
)
    requires { ((frame_of P.state pair.old.left).aims.may doc.0 span ≡ true) × ((frame_of P.state pair.old.right).aims.may doc.0 span ≡ true) }
    ensures { AreAimed doc.0 span (frame_of P.state pair.old.left) (frame_of P.state pair.new.left)
        (frame_of P.state pair.old.right) (frame_of P.state pair.new.right) steps.old steps.new }
{
    aim_node(&mut pair.left, doc, span, steps);
    aim_node(&mut pair.right, doc, span, steps);
}

#[cycle(aim)]
fn aim_negation<P: PhraseHits, L: Ledger>(
    negation: &mut Negation<P>,
    doc: DocId,
    span: Span,
    steps: &mut Steps<L>,
)
    requires { (negation_frame P.state negation.old).aims.may doc.0 span ≡ true }
    ensures { IsAimed doc.0 span (negation_frame P.state negation.old) (negation_frame P.state negation.new) steps.old steps.new }
{
    aim_node(&mut negation.operand, doc, span, steps);
}

#[cycle(aim)]
fn aim_sieve<P: PhraseHits, L: Ledger>(
    sieve: &mut Sieve<P>,
    doc: DocId,
    span: Span,
    steps: &mut Steps<L>,
)
    requires { (sieve_frame P.state sieve.old).aims.may doc.0 span ≡ true }
    ensures { IsAimed doc.0 span (sieve_frame P.state sieve.old) (sieve_frame P.state sieve.new) steps.old steps.new }
{
    aim_node(&mut sieve.operand, doc, span, steps);
}
