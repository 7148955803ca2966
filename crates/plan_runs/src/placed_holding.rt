//! Whether phrases stand in a span where they have to.

ghost use Rattle.std.specs.Prelude.{◌≡◌, ◌≤◌};
ghost use Rattle.plan_runs.specs.steps.AskedPlaces.{asked_at};
ghost use Rattle.plan_runs.specs.declared.run_placed.RunPlaced.TheVariants.{Apart, AtEdge};
ghost use Rattle.plan_runs.specs.steps.RunShapes.{placed_shape};
ghost use Rattle.plan_runs.specs.steps.RunTruth.{ArePlaced, placed_say};

use crate::aiming::aim_variants;
use crate::asked_place::AskedPlace;
use crate::edge_holding::stands_at_edge;
use crate::run_placed::{ApartPhrases, EdgePhrase, RunPlaced};
use ft_base::Steps;
use spot_merges::stand_outside;
use std::sync::ledger::Ledger;

/// Whether the phrases stand in the span where they have to.
pub(crate) fn placed_holds<'v, L: Ledger>(
    place: &AskedPlace<'v>,
    placed: &mut RunPlaced<'v>,
    moves: &mut Steps<L>,
) -> bool
    requires { ArePlaced place.now.version.now (placed_shape placed.old) }
    ensures says { result ≡ placed_say place.now.version.now (placed_shape placed.old) (asked_at place.now) }
    ensures same { placed_shape placed.new ≡ placed_shape placed.old }
    ensures grown { moves.old ≤ moves.new }
{
    match placed {
        RunPlaced::AtEdge(phrase) => holds_at_edge(place, phrase, moves),
        RunPlaced::Apart(phrases) => holds_apart(place, phrases, moves),
    }
}

fn holds_at_edge<L: Ledger>(
    place: &AskedPlace<'_>,
    phrase: &mut EdgePhrase<'_>,
    moves: &mut Steps<L>,
) -> bool
    requires { ArePlaced place.now.version.now (placed_shape (AtEdge phrase.old)) }
    ensures says { result ≡ placed_say place.now.version.now (placed_shape (AtEdge phrase.old)) (asked_at place.now) }
    ensures same { placed_shape (AtEdge phrase.new) ≡ placed_shape (AtEdge phrase.old) }
    ensures grown { moves.old ≤ moves.new }
{
    stands_at_edge(place, phrase.edge, &mut phrase.variants, moves)
}

fn holds_apart<'v, L: Ledger>(
    place: &AskedPlace<'v>,
    phrases: &mut ApartPhrases<'v>,
    moves: &mut Steps<L>,
) -> bool
    requires { ArePlaced place.now.version.now (placed_shape (Apart phrases.old)) }
    ensures says { result ≡ placed_say place.now.version.now (placed_shape (Apart phrases.old)) (asked_at place.now) }
    ensures same { placed_shape (Apart phrases.new) ≡ placed_shape (Apart phrases.old) }
    ensures grown { moves.old ≤ moves.new }
{
    let left = &mut phrases.left;
    let right = &mut phrases.right;
    aim_variants(place, &mut left.terms, &mut left.variants, moves);
    aim_variants(place, &mut right.terms, &mut right.variants, moves);
    stand_outside(
        phrases.outside,
        &mut left.variants,
        &mut right.variants,
        place.span,
        moves,
    )
}
