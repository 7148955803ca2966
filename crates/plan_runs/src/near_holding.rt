//! Whether phrases stand in a span in the windows and scopes that are asked for.

ghost use Rattle.std.specs.Prelude.{◌≡◌, ◌≤◌};
ghost use Rattle.plan_runs.specs.steps.AskedPlaces.{asked_at};
ghost use Rattle.plan_runs.specs.steps.NearRuns.{AreNear};
ghost use Rattle.plan_runs.specs.steps.RunShapes.{near_shape};
ghost use Rattle.plan_runs.specs.steps.RunTruth.{aims_say};

use crate::asked_place::AskedPlace;
use crate::run_near::RunNear;
use ft_base::Steps;
use phrase_merges::stand_near_at;
use std::sync::ledger::Ledger;

/// Whether the hits of the phrases can be chosen in the span so that they lie in the windows and scopes.
pub(crate) fn near_holds<'v, L: Ledger>(
    place: &AskedPlace<'v>,
    near: &mut Box<RunNear<'v>>,
    moves: &mut Steps<L>,
) -> bool
    requires { AreNear place.now.version.now (near_shape near.old.value) }
    ensures says { result ≡ aims_say (near_shape near.old.value).aims (asked_at place.now) }
    ensures same { near_shape near.new.value ≡ near_shape near.old.value }
    ensures grown { moves.old ≤ moves.new }
{
    tree_holds(place, near, moves)
}

fn tree_holds<'v, L: Ledger>(
    place: &AskedPlace<'v>,
    near: &mut RunNear<'v>,
    moves: &mut Steps<L>,
) -> bool
    requires { AreNear place.now.version.now (near_shape near.old) }
    ensures says { result ≡ aims_say (near_shape near.old).aims (asked_at place.now) }
    ensures same { near_shape near.new ≡ near_shape near.old }
    ensures grown { moves.old ≤ moves.new }
{
    stand_near_at(&mut near.tree, place.doc, place.span, moves)
}
