//! Whether the hits of phrases stand in a span as they have to.

ghost use Rattle.std.specs.Prelude.{◌≡◌, ◌≤◌, map, true};
ghost use Rattle.index_phrases.specs.Cursors.{state_of};
ghost use Rattle.phrase_merges.specs.Rows.{all_aims, all_may, hits_there, rise_there};
ghost use Rattle.window_merges.specs.Choices.{some_choice};
ghost use Rattle.plan_kinds.specs.steps.PassKinds.{hits_stand};
ghost use Rattle.plan_runs.specs.steps.AskedPlaces.{asked_at};
ghost use Rattle.plan_runs.specs.steps.Passes.{AreHits, hits_say};
ghost use Rattle.plan_runs.specs.steps.RunShapes.{hits_shape};

use crate::asked_place::AskedPlace;
use crate::run_hits::RunHits;
use ft_base::{DocId, Span, Steps};
use index_phrases::PhraseCursor;
use phrase_merges::{aim_all, begin_in_order, stand_apart};
use plan_kinds::PassKind;
use std::sync::ledger::Ledger;

/// Whether one hit of each phrase can be chosen in the span so that they stand as they have to. Nothing bounds its steps.
pub(crate) fn hits_hold<'v, L: Ledger>(
    place: &AskedPlace<'v>,
    hits: &mut Box<RunHits<'v>>,
    moves: &mut Steps<L>,
) -> bool
    requires { AreHits place.now.version.now (hits_shape hits.old.value) }
    ensures says { result ≡ hits_say (hits_shape hits.old.value) (asked_at place.now) }
    ensures same { hits_shape hits.new.value ≡ hits_shape hits.old.value }
    ensures grown { moves.old ≤ moves.new }
{
    some_hits_stand(place, hits, moves)
}

fn some_hits_stand<'v, L: Ledger>(
    place: &AskedPlace<'v>,
    hits: &mut RunHits<'v>,
    moves: &mut Steps<L>,
) -> bool
    requires { AreHits place.now.version.now (hits_shape hits.old) }
    ensures says { result ≡ hits_say (hits_shape hits.old) (asked_at place.now) }
    ensures same { hits_shape hits.new ≡ hits_shape hits.old }
    ensures grown { moves.old ≤ moves.new }
{
    phrases_stand(hits.kind, place.doc, place.span, &mut hits.phrases, moves)
}

/// Whether the phrases stand like this in the span of the document.
fn phrases_stand<'v, L: Ledger>(
    kind: PassKind,
    doc: DocId,
    span: Span,
    phrases: &mut Vec<Vec<PhraseCursor<'v>>>,
    steps: &mut Steps<L>,
) -> bool
    requires may { all_may doc.0 span (all_aims state_of phrases.old.items) ≡ true }
    requires rising { rise_there doc.0 span (all_aims state_of phrases.old.items) ≡ true }
    ensures says { result ≡ some_choice (hits_stand kind) (map (hits_there doc.0 span) (all_aims state_of phrases.old.items)) }
    ensures aims { all_aims state_of phrases.new.items ≡ all_aims state_of phrases.old.items }
    ensures grown { steps.old ≤ steps.new }
{
    match kind {
        PassKind::Apart(range, unit) => stand_apart(phrases, doc, span, range, unit, steps),
        PassKind::InOrder => {
            aim_all(phrases, doc, span, steps);
            begin_in_order(phrases, steps)
        }
    }
}
