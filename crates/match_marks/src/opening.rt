//! Selections that are compiled to be shown are opened over a version.

ghost use Rattle.std.specs.Prelude.{◌≡◌, map, IfOk};
ghost use Rattle.plan_runs.specs.OpenedParts.{IsWalk};
ghost use Rattle.plan_runs.specs.steps.OpenedOperators.{aims_of};
ghost use Rattle.match_marks.specs.steps.ShownRuns.{AreShown, AreShownParts, IsShown, IsShownPart, choosing, showing};
ghost use Rattle.plan_compiler.specs.declared.shown_plan.ShownNode as ShownNode;

use crate::opening_window::open_window;
use crate::shown::{FirstRun, LeastRun, Shown, ShownRun};
use crate::window_plan::window_of;
use ft_base::{Items, Memory};
use ft_operators::{Chain, Tuples};
use index_phrases::PhraseCursor;
use plan_compiler::{FirstWays, ShownNode, ShownPart, WaysPlan};
use plan_runs::{OpenedPart, Opening, open_walk};
use std::mem::drop;

/// What shows the selection over the version.
#[cycle(open)]
pub(crate) fn open_shown<'v>(opening: &Opening<'v>, node: &ShownNode) -> Result<Shown<'v>, Memory>
    ensures { IfOk result (λ run. IsShown opening.now.looks opening.now.lists.now.stems opening.now.version.now (showing run) node.now) }
{
    match node {
        ShownNode::First(first) => open_first(opening, first),
        ShownNode::Or(parts) => Ok(Shown::Or(open_parts(opening, parts)?)),
        ShownNode::And(nodes) => Ok(Shown::And(open_each(opening, nodes)?)),
        ShownNode::Nothing => Ok(Shown::Nothing),
        ShownNode::Least(plan) => open_least(opening, plan),
    }
}

#[cycle(open)]
fn open_each<'v>(opening: &Opening<'v>, nodes: &Items<ShownNode>) -> Result<Vec<Shown<'v>>, Memory>
    ensures { IfOk result (λ runs. AreShown opening.now.looks opening.now.lists.now.stems opening.now.version.now (map showing runs.items) nodes.now) }
{
    let mut runs = Vec::new(opening.alloc);
    for node in nodes.as_slice() {
        runs.push(open_shown(opening, node)?)?;
    }
    Ok(runs)
}

#[cycle(open)]
fn open_parts<'v>(
    opening: &Opening<'v>,
    parts: &Items<ShownPart>,
) -> Result<Vec<ShownRun<'v>>, Memory>
    ensures { IfOk result (λ runs. AreShownParts opening.now.looks opening.now.lists.now.stems opening.now.version.now (map choosing runs.items) parts.now) }
{
    let mut runs = Vec::new(opening.alloc);
    for part in parts.as_slice() {
        runs.push(open_part(opening, part)?)?;
    }
    Ok(runs)
}

#[cycle(open)]
fn open_part<'v>(opening: &Opening<'v>, plan: &ShownPart) -> Result<ShownRun<'v>, Memory>
    ensures { IfOk result (λ run. IsShownPart opening.now.looks opening.now.lists.now.stems opening.now.version.now (choosing run) plan.now) }
{
    let part = OpenedPart::open(opening, &plan.node)?;
    match open_shown(opening, &plan.shown) {
        Ok(shown) => Ok(ShownRun { part, shown }),
        Err(memory) => {
            drop(part);
            Err(memory)
        }
    }
}

fn open_first<'v>(opening: &Opening<'v>, first: &FirstWays) -> Result<Shown<'v>, Memory>
    ensures { IfOk result (λ run. IsShown opening.now.looks opening.now.lists.now.stems opening.now.version.now (showing run) (ShownNode.First first.now)) }
{
    let tuples = open_walk(opening, &first.ways.operator)?;
    Ok(Shown::First(FirstRun {
        tuples,
        most: first.most,
    }))
}

fn open_least<'v>(opening: &Opening<'v>, plan: &WaysPlan) -> Result<Shown<'v>, Memory>
    ensures { IfOk result (λ run. IsShown opening.now.looks opening.now.lists.now.stems opening.now.version.now (showing run) (ShownNode.Least plan.now)) }
{
    match window_of(&plan.operator) {
        Some((size, operand)) => Ok(Shown::Window(open_window(opening, size, operand)?)),
        None => open_ways(opening, plan),
    }
}

/// A walk through the ways.
fn open_ways<'v>(opening: &Opening<'v>, plan: &WaysPlan) -> Result<Shown<'v>, Memory>
    ensures { IfOk result (λ run. IsShown opening.now.looks opening.now.lists.now.stems opening.now.version.now (showing run) (ShownNode.Least plan.now)) }
{
    let tuples = open_walk(opening, &plan.operator)?;
    Ok(Shown::Least(least_run(opening, tuples)?))
}

/// The walk with a chain of filters for it.
fn least_run<'v>(
    opening: &Opening<'v>,
    tuples: Tuples<PhraseCursor<'v>>,
) -> Result<LeastRun<'v>, Memory>
    ensures { IfOk result (λ run. aims_of run.tuples ≡ aims_of tuples.entry) }
{
    let (filters, hits) = tuples.room();
    match Chain::open(opening.alloc, filters, hits) {
        Ok(chain) => Ok(LeastRun {
            tuples,
            chain,
            least: Vec::new(opening.alloc),
        }),
        Err(memory) => {
            drop(tuples);
            Err(memory)
        }
    }
}
