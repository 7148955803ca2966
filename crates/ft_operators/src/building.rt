//! Nodes of one operand and of two.

ghost use Rattle.std.specs.Prelude.{IfOk};
ghost use Rattle.ft_operators.specs.steps.Forms.{apart_frame, both_frame, choice_frame, filtered_frame, negated_frame};
ghost use Rattle.ft_operators.specs.steps.Forms.{apart_shape, both_shape, choice_shape, filtered_shape, negated_shape};
ghost use Rattle.ft_operators.specs.steps.Nodes.{frame_of, shape_of};
ghost use Rattle.ft_operators.specs.steps.Walking.{IsBuilt};

use crate::PhraseHits;
use crate::node::{Fork, Negation, Node, Pair, Sieve};
use ft_base::{Filter, Memory};
use std::alloc::Global;
use std::mem::drop;

pub(crate) fn choice_node<P: PhraseHits + Drop>(
    alloc: Global,
    left: Node<P>,
    right: Node<P>,
) -> Result<Node<P>, Memory>
    ensures { IfOk result (λ node. IsBuilt (frame_of P.state node) (shape_of node)
        (choice_frame (frame_of P.state left) (frame_of P.state right)) (choice_shape (shape_of left) (shape_of right))) }
{
    let fork = Fork {
        left,
        right,
        second: false,
    };
    match Box::new(alloc, fork) {
        Ok(fork) => Ok(Node::Choice(fork)),
        Err(failed) => {
            drop(failed);
            Err(Memory)
        }
    }
}

pub(crate) fn both_node<P: PhraseHits + Drop>(
    alloc: Global,
    left: Node<P>,
    right: Node<P>,
) -> Result<Node<P>, Memory>
    ensures { IfOk result (λ node. IsBuilt (frame_of P.state node) (shape_of node)
        (both_frame (frame_of P.state left) (frame_of P.state right)) (both_shape (shape_of left) (shape_of right))) }
{
    let pair = Pair { left, right };
    match Box::new(alloc, pair) {
        Ok(pair) => Ok(Node::Both(pair)),
        Err(failed) => {
            drop(failed);
            Err(Memory)
        }
    }
}

pub(crate) fn mild_not_node<P: PhraseHits + Drop>(
    alloc: Global,
    left: Node<P>,
    right: Node<P>,
) -> Result<Node<P>, Memory>
    ensures { IfOk result (λ node. IsBuilt (frame_of P.state node) (shape_of node)
        (apart_frame (frame_of P.state left) (frame_of P.state right)) (apart_shape (shape_of left) (shape_of right))) }
{
    let pair = Pair { left, right };
    match Box::new(alloc, pair) {
        Ok(pair) => Ok(Node::MildNot(pair)),
        Err(failed) => {
            drop(failed);
            Err(Memory)
        }
    }
}

pub(crate) fn negated_node<P: PhraseHits + Drop>(
    alloc: Global,
    operand: Node<P>,
) -> Result<Node<P>, Memory>
    ensures { IfOk result (λ node. IsBuilt (frame_of P.state node) (shape_of node)
        (negated_frame (frame_of P.state operand)) (negated_shape (shape_of operand))) }
{
    let negation = Negation {
        operand,
        there: false,
    };
    match Box::new(alloc, negation) {
        Ok(negation) => Ok(Node::Negated(negation)),
        Err(failed) => {
            drop(failed);
            Err(Memory)
        }
    }
}

pub(crate) fn filtered_node<P: PhraseHits + Drop>(
    alloc: Global,
    operand: Node<P>,
    kind: Filter,
) -> Result<Node<P>, Memory>
    ensures { IfOk result (λ node. IsBuilt (frame_of P.state node) (shape_of node)
        (filtered_frame kind (frame_of P.state operand)) (filtered_shape (shape_of operand))) }
{
    let sieve = Sieve {
        operand,
        kind,
        lead: 0,
    };
    match Box::new(alloc, sieve) {
        Ok(sieve) => Ok(Node::Filtered(sieve)),
        Err(failed) => {
            drop(failed);
            Err(Memory)
        }
    }
}
