//! Going through the ways of a node, one after the other.

ghost use Rattle.std.specs.Prelude.{◌≡◌, ◌≤◌, ℕ, vec_capacity};
ghost use Rattle.ft_operators.specs.declared.course.Course.{Course};
ghost use Rattle.ft_operators.specs.Standing.{at_prefix, one_on};
ghost use Rattle.ft_base.specs.Lists.{is_not_empty};
ghost use Rattle.ft_operators.specs.steps.Apart.{IsTried};
ghost use Rattle.ft_operators.specs.Course.{course_inside, without_bounds};
ghost use Rattle.ft_operators.specs.steps.Forms.{apart_sifted, paired, phrase_of, sifted};
ghost use Rattle.ft_operators.specs.steps.Nodes.{standing, apart_standing, fork_standing, pair_standing, sieve_standing};
ghost use Rattle.ft_operators.specs.steps.Walking.{Moved, MayGoOn};

use crate::PhraseHits;
use crate::bounds::Bounds;
use crate::choosing::choice_count;
use crate::course::{Course, course_inside};
use crate::narrowing::{course_now, course_out};
use crate::node::{Fork, Node, Pair, Sieve};
use crate::standing_out::{Tried, admits, is_barred, with_way};
use ft_base::{Hit, Steps};
use std::sync::ledger::Ledger;

/// Goes to the first way of the node. `held` is memory for the hits of ways, and what it holds is of no account.
#[cycle(walk)]
pub(crate) fn first<P: PhraseHits, L: Ledger>(
    node: &mut Node<P>,
    course: Course,
    held: &mut Vec<Hit>,
    steps: &mut Steps<L>,
) -> bool
    requires { (standing P.state course node.old).shape.room ≤ vec_capacity held.old }
    ensures { Moved (at_prefix course (standing P.state course node.old)) (standing P.state course node.new)
        (vec_capacity held.old) (vec_capacity held.new) steps.old steps.new result }
{
    match node {
        Node::Phrase(phrase) => first_of_phrase(phrase, &course.bounds, steps),
        Node::Choice(fork) => first_of_fork(fork, course, held, steps),
        Node::Both(pair) => first_of_pair(pair, course, held, steps),
        Node::MildNot(pair) => first_apart(pair, course, held, steps),
        Node::Negated(negation) => {
            negation.there = true;
            true
        }
        Node::Filtered(sieve) => first_of_sieve(sieve, course, held, steps),
    }
}

/// Goes one way on, from a way of the node.
#[cycle(walk)]
pub(crate) fn go_on<P: PhraseHits, L: Ledger>(
    node: &mut Node<P>,
    course: Course,
    held: &mut Vec<Hit>,
    steps: &mut Steps<L>,
) -> bool
    requires { MayGoOn (standing P.state course node.old) (vec_capacity held.old) }
    ensures { Moved (one_on (standing P.state course node.old)) (standing P.state course node.new)
        (vec_capacity held.old) (vec_capacity held.new) steps.old steps.new result }
{
    match node {
        Node::Phrase(phrase) => next_of_phrase(phrase, steps),
        Node::Choice(fork) => next_of_fork(fork, course, held, steps),
        Node::Both(pair) => next_of_pair(pair, course, held, steps),
        Node::MildNot(pair) => next_apart(pair, course, held, steps),
        Node::Negated(negation) => {
            negation.there = false;
            false
        }
        Node::Filtered(sieve) => next_of_sieve(sieve, course, held, steps),
    }
}

fn first_of_phrase<P: PhraseHits, L: Ledger>(
    phrase: &mut P,
    bounds: &Bounds,
    steps: &mut Steps<L>,
) -> bool
    ensures { (course : Course) (room : ℕ) → course.bounds ≡ bounds.now
        → Moved (at_prefix course (phrase_of (P.state phrase.old))) (phrase_of (P.state phrase.new)) room room steps.old steps.new result }
{
    phrase.first_in(bounds, steps);
    phrase.here().is_some()
}

fn next_of_phrase<P: PhraseHits, L: Ledger>(phrase: &mut P, steps: &mut Steps<L>) -> bool
    ensures { (room : ℕ) → Moved (one_on (phrase_of (P.state phrase.old))) (phrase_of (P.state phrase.new)) room room steps.old steps.new result }
{
    phrase.next(steps);
    phrase.here().is_some()
}

#[cycle(walk)]
fn first_of_fork<P: PhraseHits, L: Ledger>(
    fork: &mut Fork<P>,
    course: Course,
    held: &mut Vec<Hit>,
    steps: &mut Steps<L>,
) -> bool
    requires { (fork_standing P.state course fork.old).shape.room ≤ vec_capacity held.old }
    ensures { Moved (at_prefix course (fork_standing P.state course fork.old)) (fork_standing P.state course fork.new)
        (vec_capacity held.old) (vec_capacity held.new) steps.old steps.new result }
{
    if first(&mut fork.left, course, held, steps) {
        fork.second = false;
        return true;
    }
    fork.second = true;
    first(&mut fork.right, course, held, steps)
}

#[cycle(walk)]
fn next_of_fork<P: PhraseHits, L: Ledger>(
    fork: &mut Fork<P>,
    course: Course,
    held: &mut Vec<Hit>,
    steps: &mut Steps<L>,
) -> bool
    requires { MayGoOn (fork_standing P.state course fork.old) (vec_capacity held.old) }
    ensures { Moved (one_on (fork_standing P.state course fork.old)) (fork_standing P.state course fork.new)
        (vec_capacity held.old) (vec_capacity held.new) steps.old steps.new result }
{
    if fork.second {
        return go_on(&mut fork.right, course, held, steps);
    }
    if go_on(&mut fork.left, course, held, steps) {
        return true;
    }
    fork.second = true;
    first(&mut fork.right, course, held, steps)
}

#[cycle(walk)]
fn first_of_pair<P: PhraseHits, L: Ledger>(
    pair: &mut Pair<P>,
    course: Course,
    held: &mut Vec<Hit>,
    steps: &mut Steps<L>,
) -> bool
    requires { (pair_standing P.state course pair.old).shape.room ≤ vec_capacity held.old }
    ensures { Moved (at_prefix course (pair_standing P.state course pair.old)) (pair_standing P.state course pair.new)
        (vec_capacity held.old) (vec_capacity held.new) steps.old steps.new result }
{
    let there = first(&mut pair.left, course, held, steps);
    settle_pair(pair, there, course, held, steps)
}

#[cycle(walk)]
fn next_of_pair<P: PhraseHits, L: Ledger>(
    pair: &mut Pair<P>,
    course: Course,
    held: &mut Vec<Hit>,
    steps: &mut Steps<L>,
) -> bool
    requires { MayGoOn (pair_standing P.state course pair.old) (vec_capacity held.old) }
    ensures { Moved (one_on (pair_standing P.state course pair.old)) (pair_standing P.state course pair.new)
        (vec_capacity held.old) (vec_capacity held.new) steps.old steps.new result }
{
    let beside = course_now(course, &pair.left, held);
    if go_on(&mut pair.right, beside, held, steps) {
        return true;
    }
    let there = go_on(&mut pair.left, course, held, steps);
    settle_pair(pair, there, course, held, steps)
}

/// Goes on to the first way of the left side, from the present one on, beside which the right side has a way, and to the first
/// of these.
#[cycle(walk)]
fn settle_pair<P: PhraseHits, L: Ledger>(
    pair: &mut Pair<P>,
    there: bool,
    course: Course,
    held: &mut Vec<Hit>,
    steps: &mut Steps<L>,
) -> bool
    requires there { there ≡ is_not_empty ((standing P.state course pair.old.left).rest) }
    requires fits { (pair_standing P.state course pair.old).shape.room ≤ vec_capacity held.old }
    ensures { Moved (paired course (standing P.state course pair.old.left) (standing P.state course pair.old.right)) (pair_standing P.state course pair.new)
        (vec_capacity held.old) (vec_capacity held.new) steps.old steps.new result }
{
    let mut there = there;
    while there {
        let beside = course_now(course, &pair.left, held);
        if first(&mut pair.right, beside, held, steps) {
            return true;
        }
        there = go_on(&mut pair.left, course, held, steps);
    }
    false
}

/// Goes to the first way of the operand through which there is a way through the filter.
#[cycle(walk)]
fn first_of_sieve<P: PhraseHits, L: Ledger>(
    sieve: &mut Sieve<P>,
    course: Course,
    held: &mut Vec<Hit>,
    steps: &mut Steps<L>,
) -> bool
    requires { (sieve_standing P.state course sieve.old).shape.room ≤ vec_capacity held.old }
    ensures { Moved (at_prefix course (sieve_standing P.state course sieve.old)) (sieve_standing P.state course sieve.new)
        (vec_capacity held.old) (vec_capacity held.new) steps.old steps.new result }
{
    let inside = course_inside(course, &sieve.kind);
    let there = first(&mut sieve.operand, inside, held, steps);
    settle(sieve, there, course, held, steps)
}

#[cycle(walk)]
fn next_of_sieve<P: PhraseHits, L: Ledger>(
    sieve: &mut Sieve<P>,
    course: Course,
    held: &mut Vec<Hit>,
    steps: &mut Steps<L>,
) -> bool
    requires { MayGoOn (sieve_standing P.state course sieve.old) (vec_capacity held.old) }
    ensures { Moved (one_on (sieve_standing P.state course sieve.old)) (sieve_standing P.state course sieve.new)
        (vec_capacity held.old) (vec_capacity held.new) steps.old steps.new result }
{
    let inside = course_inside(course, &sieve.kind);
    let count = choice_count(&sieve.kind, &sieve.operand, inside, held);
    if sieve.lead + 1 < count {
        sieve.lead += 1;
        return true;
    }
    let there = go_on(&mut sieve.operand, inside, held, steps);
    settle(sieve, there, course, held, steps)
}

/// Goes on to the first way of the operand, from the present one on, that the filter keeps, and to its first choice.
#[cycle(walk)]
fn settle<P: PhraseHits, L: Ledger>(
    sieve: &mut Sieve<P>,
    there: bool,
    course: Course,
    held: &mut Vec<Hit>,
    steps: &mut Steps<L>,
) -> bool
    requires there { there ≡ is_not_empty ((standing P.state (course_inside sieve.old.kind course) sieve.old.operand).rest) }
    requires fits { (standing P.state (course_inside sieve.old.kind course) sieve.old.operand).shape.room ≤ vec_capacity held.old }
    ensures { Moved (sifted course sieve.old.kind (standing P.state (course_inside sieve.old.kind course) sieve.old.operand)) (sieve_standing P.state course sieve.new)
        (vec_capacity held.old) (vec_capacity held.new) steps.old steps.new result }
{
    sieve.lead = 0;
    let mut there = there;
    while there {
        let inside = course_inside(course, &sieve.kind);
        if choice_count(&sieve.kind, &sieve.operand, inside, held) > 0 {
            return true;
        }
        there = go_on(&mut sieve.operand, inside, held, steps);
    }
    false
}

/// Goes to the first way of the left side that stands out of each of the right side.
#[cycle(walk)]
fn first_apart<P: PhraseHits, L: Ledger>(
    pair: &mut Pair<P>,
    course: Course,
    held: &mut Vec<Hit>,
    steps: &mut Steps<L>,
) -> bool
    requires { (apart_standing P.state course pair.old).shape.room ≤ vec_capacity held.old }
    ensures { Moved (at_prefix course (apart_standing P.state course pair.old)) (apart_standing P.state course pair.new)
        (vec_capacity held.old) (vec_capacity held.new) steps.old steps.new result }
{
    let there = first(&mut pair.left, course, held, steps);
    settle_apart(pair, there, course, held, steps)
}

#[cycle(walk)]
fn next_apart<P: PhraseHits, L: Ledger>(
    pair: &mut Pair<P>,
    course: Course,
    held: &mut Vec<Hit>,
    steps: &mut Steps<L>,
) -> bool
    requires { MayGoOn (apart_standing P.state course pair.old) (vec_capacity held.old) }
    ensures { Moved (one_on (apart_standing P.state course pair.old)) (apart_standing P.state course pair.new)
        (vec_capacity held.old) (vec_capacity held.new) steps.old steps.new result }
{
    let there = go_on(&mut pair.left, course, held, steps);
    settle_apart(pair, there, course, held, steps)
}

/// Goes on to the first way of the left side, from the present one on, that stands out of each of the right side.
#[cycle(walk)]
fn settle_apart<P: PhraseHits, L: Ledger>(
    pair: &mut Pair<P>,
    there: bool,
    course: Course,
    held: &mut Vec<Hit>,
    steps: &mut Steps<L>,
) -> bool
    requires there { there ≡ is_not_empty ((standing P.state course pair.old.left).rest) }
    requires fits { (apart_standing P.state course pair.old).shape.room ≤ vec_capacity held.old }
    ensures { Moved (apart_sifted course (standing P.state course pair.old.left) (standing P.state (without_bounds course) pair.old.right))
        (apart_standing P.state course pair.new) (vec_capacity held.old) (vec_capacity held.new) steps.old steps.new result }
{
    let mut there = there;
    while there {
        if is_admitted(pair, course, held, steps) {
            return true;
        }
        there = go_on(&mut pair.left, course, held, steps);
    }
    false
}

/// Whether the present way of the left side stands out of each way of the right side, or none of these has a hit. No
/// further way is tried where it is known that neither holds.
#[cycle(walk)]
fn is_admitted<P: PhraseHits, L: Ledger>(
    pair: &mut Pair<P>,
    course: Course,
    held: &mut Vec<Hit>,
    steps: &mut Steps<L>,
) -> bool
    requires { MayGoOn (apart_standing P.state course pair.old) (vec_capacity held.old) }
    ensures { IsTried course (standing P.state course pair.old.left) (standing P.state (without_bounds course) pair.old.right)
        (standing P.state course pair.new.left) (standing P.state (without_bounds course) pair.new.right)
        (vec_capacity held.old) (vec_capacity held.new) steps.old steps.new result }
{
    let mut tried = Tried {
        some: false,
        all: true,
    };
    let beside = course_out(course, &pair.left, held);
    let mut there = first(&mut pair.right, beside, held, steps);
    while there {
        tried = with_way(tried, pair, held);
        if is_barred(tried) {
            return false;
        }
        there = go_on(&mut pair.right, beside, held, steps);
    }
    admits(tried)
}
