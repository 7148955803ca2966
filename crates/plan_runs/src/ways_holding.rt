//! Whether a span satisfies an opened selection with filters or `not in`.

ghost use Rattle.std.specs.Prelude.{◌≡◌, ◌≤◌};
ghost use Rattle.plan_runs.specs.steps.AskedPlaces.{asked_at};
ghost use Rattle.plan_runs.specs.steps.OpenedOperators.{AreAims, aims_of};
ghost use Rattle.plan_runs.specs.steps.RunTruth.{aims_say};

use crate::asked_place::AskedPlace;
use crate::run_ways::RunWays;
use ft_base::Steps;
use std::sync::ledger::Ledger;

/// Whether one of the ways of the selection in the span leaves no exclude. Nothing bounds its steps.
pub(crate) fn ways_hold<'v, L: Ledger>(
    place: &AskedPlace<'v>,
    ways: &mut Box<RunWays<'v>>,
    moves: &mut Steps<L>,
) -> bool
    requires { AreAims place.now.version.now (aims_of ways.old.value.tuples) }
    ensures says { result ≡ aims_say (aims_of ways.old.value.tuples) (asked_at place.now) }
    ensures same { aims_of ways.new.value.tuples ≡ aims_of ways.old.value.tuples }
    ensures needs { ways.new.value.needs ≡ ways.old.value.needs }
    ensures grown { moves.old ≤ moves.new }
{
    some_way_is_clean(place, ways, moves)
}

fn some_way_is_clean<'v, L: Ledger>(
    place: &AskedPlace<'v>,
    ways: &mut RunWays<'v>,
    moves: &mut Steps<L>,
) -> bool
    requires { AreAims place.now.version.now (aims_of ways.old.tuples) }
    ensures says { result ≡ aims_say (aims_of ways.old.tuples) (asked_at place.now) }
    ensures same { aims_of ways.new.tuples ≡ aims_of ways.old.tuples }
    ensures needs { ways.new.needs ≡ ways.old.needs }
    ensures grown { moves.old ≤ moves.new }
{
    ways.tuples
        .satisfied_at(place.doc, place.span, &mut ways.chain, moves)
}
