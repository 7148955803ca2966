//! Whether a way of a node is clean: whether its negated selections leave no exclude that the filters round them keep.

ghost use Rattle.std.specs.Prelude.{◌≡◌, ◌≤◌, ◌<◌, ◌+◌, ◌∷◌, ⊤, None, get_or, length, vec_capacity};
ghost use Rattle.std.specs.List.{list_all};
ghost use Rattle.all_matches.specs.Chain.{kept_by};
ghost use Rattle.all_matches.specs.Filters.{choices};
ghost use Rattle.all_matches.specs.Ways.{clean_under};
ghost use Rattle.ft_operators.specs.Course.{asked_for};
ghost use Rattle.ft_operators.specs.Chains.{all_kept, links_of, spare_filters, spare_hits};
ghost use Rattle.ft_operators.specs.steps.Cleaning.{Asked, Decided, MayAsk, Searched};
ghost use Rattle.ft_operators.specs.steps.Nodes.{standing, apart_standing, fork_standing, negation_standing, pair_standing, sieve_standing};

use crate::PhraseHits;
use crate::chain::Chain;
use crate::choosing::chosen_window;
use crate::course::{Course, Windows, course_inside, firsts};
use crate::gathering::{gather, hold};
use crate::narrowing::course_now;
use crate::node::{Fork, Negation, Node, Pair, Sieve};
use crate::walking::{first, go_on};
use ft_base::{Filter, Hit, Steps};
use std::sync::ledger::Ledger;
use window_distance::Includes;

/// Whether some way of the node is clean under the chain. `held` is memory for the hits of ways, and what it holds is of
/// no account.
pub(crate) fn some_is_clean<P: PhraseHits, L: Ledger>(
    node: &mut Node<P>,
    course: Course,
    chain: &mut Chain,
    held: &mut Vec<Hit>,
    steps: &mut Steps<L>,
) -> bool
    requires fits { (standing P.state course node.old).shape.room ≤ vec_capacity held.old }
    requires filters { (standing P.state course node.old).shape.filters ≤ spare_filters chain.old }
    requires hits { (standing P.state course node.old).shape.hits ≤ spare_hits chain.old }
    ensures { Decided course (clean_under (kept_by (links_of chain.old))) (standing P.state course node.old) (standing P.state course node.new)
        chain.old chain.new (vec_capacity held.old) (vec_capacity held.new) steps.old steps.new result }
{
    let mut there = first(node, course, held, steps);
    while there {
        if is_clean(node, course, chain, held, steps) {
            return true;
        }
        there = go_on(node, course, held, steps);
    }
    false
}

/// Whether some way of the node has includes that all filters of the chain keep.
pub(crate) fn some_is_kept<P: PhraseHits, L: Ledger>(
    node: &mut Node<P>,
    course: Course,
    chain: &Chain,
    held: &mut Vec<Hit>,
    steps: &mut Steps<L>,
) -> bool
    requires { (standing P.state course node.old).shape.room ≤ vec_capacity held.old }
    ensures { Searched course ⊤ (all_kept (kept_by (links_of chain.now))) (standing P.state course node.old) (standing P.state course node.new)
        (vec_capacity held.old) (vec_capacity held.new) steps.old steps.new result }
{
    let mut there = first(node, course, held, steps);
    while there {
        hold(node, there, held);
        if are_kept(chain, held) {
            return true;
        }
        there = go_on(node, course, held, steps);
    }
    false
}

/// Whether all filters of the chain keep the hits.
fn are_kept(chain: &Chain, hits: &[Hit]) -> bool
    ensures { result ≡ list_all (kept_by (links_of chain.now)) hits.now }
{
    hits.iter().all(|hit| chain.keeps(hit))
}

/// Whether the present way of the node is clean under the chain.
#[cycle(clean)]
pub(crate) fn is_clean<P: PhraseHits, L: Ledger>(
    node: &mut Node<P>,
    course: Course,
    chain: &mut Chain,
    held: &mut Vec<Hit>,
    steps: &mut Steps<L>,
) -> bool
    requires { MayAsk (standing P.state course node.old) (vec_capacity held.old) (spare_filters chain.old) (spare_hits chain.old) }
    ensures { Asked course (standing P.state course node.old) (standing P.state course node.new) chain.old chain.new
        (vec_capacity held.old) (vec_capacity held.new) steps.old steps.new result }
{
    match node {
        Node::Phrase(_) => true,
        Node::Choice(fork) => fork_is_clean(fork, course, chain, held, steps),
        Node::Both(pair) => pair_is_clean(pair, course, chain, held, steps),
        Node::MildNot(pair) => apart_is_clean(pair, course, chain, held, steps),
        Node::Negated(negation) => negation_is_clean(negation, course, chain, held, steps),
        Node::Filtered(sieve) => sieve_is_clean(sieve, course, chain, held, steps),
    }
}

#[cycle(clean)]
fn fork_is_clean<P: PhraseHits, L: Ledger>(
    fork: &mut Fork<P>,
    course: Course,
    chain: &mut Chain,
    held: &mut Vec<Hit>,
    steps: &mut Steps<L>,
) -> bool
    requires { MayAsk (fork_standing P.state course fork.old) (vec_capacity held.old) (spare_filters chain.old) (spare_hits chain.old) }
    ensures { Asked course (fork_standing P.state course fork.old) (fork_standing P.state course fork.new) chain.old chain.new
        (vec_capacity held.old) (vec_capacity held.new) steps.old steps.new result }
{
    if fork.second {
        is_clean(&mut fork.right, course, chain, held, steps)
    } else {
        is_clean(&mut fork.left, course, chain, held, steps)
    }
}

#[cycle(clean)]
fn pair_is_clean<P: PhraseHits, L: Ledger>(
    pair: &mut Pair<P>,
    course: Course,
    chain: &mut Chain,
    held: &mut Vec<Hit>,
    steps: &mut Steps<L>,
) -> bool
    requires { MayAsk (pair_standing P.state course pair.old) (vec_capacity held.old) (spare_filters chain.old) (spare_hits chain.old) }
    ensures { Asked course (pair_standing P.state course pair.old) (pair_standing P.state course pair.new) chain.old chain.new
        (vec_capacity held.old) (vec_capacity held.new) steps.old steps.new result }
{
    if !is_clean(&mut pair.left, course, chain, held, steps) {
        return false;
    }
    let beside = course_now(course, &pair.left, held);
    is_clean(&mut pair.right, beside, chain, held, steps)
}

#[cycle(clean)]
fn apart_is_clean<P: PhraseHits, L: Ledger>(
    pair: &mut Pair<P>,
    course: Course,
    chain: &mut Chain,
    held: &mut Vec<Hit>,
    steps: &mut Steps<L>,
) -> bool
    requires { MayAsk (apart_standing P.state course pair.old) (vec_capacity held.old) (spare_filters chain.old) (spare_hits chain.old) }
    ensures { Asked course (apart_standing P.state course pair.old) (apart_standing P.state course pair.new) chain.old chain.new
        (vec_capacity held.old) (vec_capacity held.new) steps.old steps.new result }
{
    is_clean(&mut pair.left, course, chain, held, steps)
}

/// A negated selection leaves an exclude exactly where some way of its operand has includes that are all kept.
fn negation_is_clean<P: PhraseHits, L: Ledger>(
    negation: &mut Negation<P>,
    course: Course,
    chain: &mut Chain,
    held: &mut Vec<Hit>,
    steps: &mut Steps<L>,
) -> bool
    requires { MayAsk (negation_standing P.state course negation.old) (vec_capacity held.old) (spare_filters chain.old) (spare_hits chain.old) }
    ensures { Asked course (negation_standing P.state course negation.old) (negation_standing P.state course negation.new) chain.old chain.new
        (vec_capacity held.old) (vec_capacity held.new) steps.old steps.new result }
{
    let firsts = firsts(course.item, chain.bounds(), course.extents, course.beside);
    !some_is_kept(&mut negation.operand, firsts, chain, held, steps)
}

/// The filter is put inside those of the chain while its operand is asked.
#[cycle(clean)]
fn sieve_is_clean<P: PhraseHits, L: Ledger>(
    sieve: &mut Sieve<P>,
    course: Course,
    chain: &mut Chain,
    held: &mut Vec<Hit>,
    steps: &mut Steps<L>,
) -> bool
    requires { MayAsk (sieve_standing P.state course sieve.old) (vec_capacity held.old) (spare_filters chain.old) (spare_hits chain.old) }
    ensures { Asked course (sieve_standing P.state course sieve.old) (sieve_standing P.state course sieve.new) chain.old chain.new
        (vec_capacity held.old) (vec_capacity held.new) steps.old steps.new result }
{
    held.clear();
    gather(&sieve.operand, held);
    push_filter(chain, &sieve.kind, course.windows, sieve.lead, held);
    let inside = course_inside(course, &sieve.kind);
    let clean = is_clean(&mut sieve.operand, inside, chain, held, steps);
    chain.pop();
    clean
}

/// Puts a filter inside those of the chain, with its includes and the choice of that number, counted from 0, among those
/// that are asked for.
fn push_filter(chain: &mut Chain, kind: &Filter, windows: Windows, lead: u64, hits: &[Hit])
    requires lead { lead < length (asked_for windows (choices kind.now hits.now)) }
    requires filters { 0 < spare_filters chain.old }
    requires hits { length hits.now ≤ spare_hits chain.old }
    ensures links { links_of chain.new
        ≡ record { kind = kind.now; includes = hits.now; choice = get_or (asked_for windows (choices kind.now hits.now)) lead None } ∷ links_of chain.old }
    ensures filters { spare_filters chain.old ≤ spare_filters chain.new + 1 }
    ensures hits { spare_hits chain.old ≤ spare_hits chain.new + length hits.now }
{
    let window = chosen_window(kind, windows, lead, hits);
    chain.push(kind, &Includes::of(hits), window);
}
