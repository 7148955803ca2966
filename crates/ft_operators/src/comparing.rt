//! The least includes of the clean ways of a node.

ghost use Rattle.std.specs.Prelude.{◌≡◌, ◌≤◌, true, filter, map, vec_capacity, IfOk, OnOk};
ghost use Rattle.all_matches.specs.Chain.{kept_by};
ghost use Rattle.all_matches.specs.Ways.{clean_under, way_includes};
ghost use Rattle.best_hits.specs.Least as spec;
ghost use Rattle.ft_operators.specs.Chains.{links_of, spare_filters, spare_hits};
ghost use Rattle.ft_operators.specs.Course.{ways_on};
ghost use Rattle.ft_operators.specs.Ordered.{comes_in_order};
ghost use Rattle.ft_operators.specs.steps.Cleaning.{MayAsk, tells};
ghost use Rattle.ft_operators.specs.steps.Comparing.{Compared, GoneThrough, Looked, lesser, so_far};
ghost use Rattle.ft_operators.specs.steps.Nodes.{standing};

use crate::PhraseHits;
use crate::chain::Chain;
use crate::cleaning::is_clean;
use crate::course::Course;
use crate::gathering::hold;
use crate::node::Node;
use crate::walking::{first, go_on};
use ft_base::{Hit, Memory, Steps};
use std::sync::ledger::Ledger;

/// Puts the least includes of the node's ways that are clean under the chain in the place of what `least` holds, and no hit where
/// no way is clean. `held` is memory for the hits of ways, and what it holds is of no account. Where the ways come in the order of their
/// includes (`in_order`) it ends at the first clean one.
pub(crate) fn least_of_clean<P: PhraseHits, L: Ledger>(
    node: &mut Node<P>,
    course: Course,
    in_order: bool,
    chain: &mut Chain,
    held: &mut Vec<Hit>,
    least: &mut Vec<Hit>,
    steps: &mut Steps<L>,
) -> Result<(), Memory>
    requires order { in_order ≡ true → comes_in_order (standing P.state course node.old).operator ≡ true }
    requires fits { (standing P.state course node.old).shape.room ≤ vec_capacity held.old }
    requires filters { (standing P.state course node.old).shape.filters ≤ spare_filters chain.old }
    requires hits { (standing P.state course node.old).shape.hits ≤ spare_hits chain.old }
    ensures walk { GoneThrough (standing P.state course node.old) (standing P.state course node.new) chain.old chain.new
        (vec_capacity held.old) (vec_capacity held.new) steps.old steps.new }
    ensures least { OnOk result (tells course (standing P.state course node.old).operator ≡ true
        → least.new.items ≡ spec.least (map way_includes
        (filter (clean_under (kept_by (links_of chain.old))) (ways_on course (standing P.state course node.old).operator)))) }
{
    least.clear();
    let mut any = false;
    let mut there = first(node, course, held, steps);
    while there {
        any = keep_if_clean(node, course, chain, held, any, least, steps)?;
        if any && in_order {
            return Ok(());
        }
        there = go_on(node, course, held, steps);
    }
    Ok(())
}

/// Keeps the includes of the present way, where it is clean and they are the least so far; `any` says whether others are kept.
/// Says whether any are kept then.
fn keep_if_clean<P: PhraseHits, L: Ledger>(
    node: &mut Node<P>,
    course: Course,
    chain: &mut Chain,
    held: &mut Vec<Hit>,
    any: bool,
    least: &mut Vec<Hit>,
    steps: &mut Steps<L>,
) -> Result<bool, Memory>
    requires { MayAsk (standing P.state course node.old) (vec_capacity held.old) (spare_filters chain.old) (spare_hits chain.old) }
    ensures walk { Looked (standing P.state course node.old) (standing P.state course node.new) chain.old chain.new
        (vec_capacity held.old) (vec_capacity held.new) steps.old steps.new }
    ensures least { IfOk result (λ found. Compared (tells course (standing P.state course node.old).operator ≡ true)
        (clean_under (kept_by (links_of chain.old))) (standing P.state course node.old).rest any least.old.items found least.new.items) }
{
    if !is_clean(node, course, chain, held, steps) {
        return Ok(any);
    }
    hold(node, true, held);
    keep_lesser(any, held, least)?;
    Ok(true)
}

/// Keeps the hits, where they come before those that are kept, or none are.
fn keep_lesser(any: bool, hits: &[Hit], least: &mut Vec<Hit>) -> Result<(), Memory>
    ensures { OnOk result (least.new.items ≡ lesser (so_far any least.old.items) hits.now) }
{
    if any && !come_before(hits, least) {
        return Ok(());
    }
    least.clear();
    least.extend_from_slice(hits)?;
    Ok(())
}

/// Whether hits come before others: hit by hit, by the first place and then the last one; those that go on come after those that end.
fn come_before(hits: &[Hit], others: &[Hit]) -> bool
    ensures { result ≡ spec.comes_before hits.now others.now }
{
    for number in 0..hits.len() {
        if number == others.len() {
            return false;
        }
        if is_earlier(&hits[number], &others[number]) {
            return true;
        }
        if !has_same_places(&hits[number], &others[number]) {
            return false;
        }
    }
    hits.len() < others.len()
}

pub(crate) fn is_earlier(hit: &Hit, other: &Hit) -> bool
    ensures { result ≡ spec.is_earlier hit.now other.now }
{
    hit.from < other.from || (hit.from == other.from && hit.to < other.to)
}

fn has_same_places(hit: &Hit, other: &Hit) -> bool
    ensures { result ≡ spec.has_same_places hit.now other.now }
{
    hit.from == other.from && hit.to == other.to
}
