//! Whether the words of a span satisfy an opened selection.

ghost use Rattle.std.specs.Prelude.{◌≡◌, ◌≤◌, ◌+◌, map, true};
ghost use Rattle.plan_runs.specs.steps.CheapShapes.{are_cheap_shapes, is_cheap_shape};
ghost use Rattle.plan_runs.specs.steps.RunCosts.{moves_for, run_cost, run_costs};
ghost use Rattle.plan_runs.specs.steps.RunShapes.{shape, shapes_of};
ghost use Rattle.plan_runs.specs.steps.RunTruth.{AreSound, IsSound, all_true, run_truth, some_true};
ghost use Rattle.plan_runs.specs.steps.AskedPlaces.{asked_at};

use crate::asked_place::AskedPlace;
use crate::counts_holding::counts_hold;
use crate::hits_holding::hits_hold;
use crate::merge_holding::merge_holds;
use crate::near_holding::near_holds;
use crate::placed_holding::placed_holds;
use crate::run_node::RunNode;
use crate::ways_holding::ways_hold;
use crate::words_holding::words_hold;
use ft_base::Steps;
use std::sync::ledger::Ledger;

/// Whether the words of the span satisfy the selection. Where it counts words and merges single words alone, the moves are no more than
/// these cost, those of words that are counted in windows, sentences or paragraphs twice.
#[cycle(holding)]
pub(crate) fn node_holds<'v, L: Ledger>(
    place: &AskedPlace<'v>,
    node: &mut RunNode<'v>,
    moves: &mut Steps<L>,
) -> bool
    requires { IsSound place.now.version.now (shape node.old) }
    ensures says { result ≡ run_truth place.now.version.now (shape node.old) (asked_at place.now) }
    ensures same { shape node.new ≡ shape node.old }
    ensures price { is_cheap_shape true (shape node.old) ≡ true → moves.new ≤ moves.old + run_cost (moves_for place.now) 2 (shape node.old) }
    ensures grown { moves.old ≤ moves.new }
{
    match node {
        RunNode::Words(words) => words_hold(place, words, moves),
        RunNode::Or(parts) => some_holds(place, parts, moves),
        RunNode::And(parts) => all_hold(place, parts, moves),
        RunNode::Not(part) => !part_holds(place, part, moves),
        RunNode::Ways(ways) => ways_hold(place, ways, moves),
        RunNode::Near(near) => near_holds(place, near, moves),
        RunNode::Hits(hits) => hits_hold(place, hits, moves),
        RunNode::Merge(merge) => merge_holds(place, merge, moves),
        RunNode::Placed(placed) => placed_holds(place, placed, moves),
        RunNode::Counted(counts) => counts_hold(place, counts, moves),
    }
}

#[cycle(holding)]
fn part_holds<'v, L: Ledger>(
    place: &AskedPlace<'v>,
    part: &mut Box<RunNode<'v>>,
    moves: &mut Steps<L>,
) -> bool
    requires { IsSound place.now.version.now (shape part.old.value) }
    ensures says { result ≡ run_truth place.now.version.now (shape part.old.value) (asked_at place.now) }
    ensures same { shape part.new.value ≡ shape part.old.value }
    ensures price { is_cheap_shape true (shape part.old.value) ≡ true
        → moves.new ≤ moves.old + run_cost (moves_for place.now) 2 (shape part.old.value) }
    ensures grown { moves.old ≤ moves.new }
{
    node_holds(place, part, moves)
}

#[cycle(holding)]
fn some_holds<'v, L: Ledger>(
    place: &AskedPlace<'v>,
    parts: &mut Vec<RunNode<'v>>,
    moves: &mut Steps<L>,
) -> bool
    requires { AreSound place.now.version.now (shapes_of (map shape parts.old.items)) }
    ensures says { result ≡ some_true place.now.version.now (shapes_of (map shape parts.old.items)) (asked_at place.now) }
    ensures same { map shape parts.new.items ≡ map shape parts.old.items }
    ensures price { are_cheap_shapes true (shapes_of (map shape parts.old.items)) ≡ true
        → moves.new ≤ moves.old + run_costs (moves_for place.now) 2 (shapes_of (map shape parts.old.items)) }
    ensures grown { moves.old ≤ moves.new }
{
    for number in 0..parts.len() {
        if node_holds(place, &mut parts[number], moves) {
            return true;
        }
    }
    false
}

#[cycle(holding)]
fn all_hold<'v, L: Ledger>(
    place: &AskedPlace<'v>,
    parts: &mut Vec<RunNode<'v>>,
    moves: &mut Steps<L>,
) -> bool
    requires { AreSound place.now.version.now (shapes_of (map shape parts.old.items)) }
    ensures says { result ≡ all_true place.now.version.now (shapes_of (map shape parts.old.items)) (asked_at place.now) }
    ensures same { map shape parts.new.items ≡ map shape parts.old.items }
    ensures price { are_cheap_shapes true (shapes_of (map shape parts.old.items)) ≡ true
        → moves.new ≤ moves.old + run_costs (moves_for place.now) 2 (shapes_of (map shape parts.old.items)) }
    ensures grown { moves.old ≤ moves.new }
{
    for number in 0..parts.len() {
        if !node_holds(place, &mut parts[number], moves) {
            return false;
        }
    }
    true
}
