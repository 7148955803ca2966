//! Whether the words of a merge stand in a span as they have to.

ghost use Rattle.std.specs.Prelude.{◌≡◌, ◌+◌, ◌*◌, ◌≤◌, length, map};
ghost use Rattle.std.specs.List.{All, sum_by};
ghost use Rattle.index_meaning.specs.Documents.{breaks_of, document_at};
ghost use Rattle.index_versions.specs.Terms.{aimed_at};
ghost use Rattle.plan_runs.specs.steps.AskedPlaces.{asked_at};
ghost use Rattle.plan_kinds.specs.steps.MergeKinds.{stand_as};
ghost use Rattle.plan_runs.specs.steps.Merges.{IsMerge, merge_cost, merge_says};
ghost use Rattle.plan_runs.specs.steps.RunCosts.{moves_for};
ghost use Rattle.plan_runs.specs.steps.RunShapes.{cursors_of, count_of, merge_shape};
ghost use Rattle.window_merges.specs.Rows.{all_places, word_lists, words_left};

use crate::asked_place::AskedPlace;
use crate::run_merge::RunMerge;
use crate::units::{Paragraphs, Sentences};
use ft_base::Steps;
use index_versions::{TermCursor, TermSources};
use plan_kinds::MergeKind;
use std::sync::ledger::Ledger;
use window_merges::{stand_close, stand_in_order, stand_together};

/// Whether one place of each word can be chosen in the span so that they stand as they have to.
pub(crate) fn merge_holds<'v, L: Ledger>(
    place: &AskedPlace<'v>,
    merge: &mut RunMerge<'v>,
    moves: &mut Steps<L>,
) -> bool
    requires { IsMerge place.now.version.now (merge_shape merge.old) }
    ensures says { result ≡ merge_says place.now.version.now (merge_shape merge.old) (asked_at place.now) }
    ensures same { merge_shape merge.new ≡ merge_shape merge.old }
    ensures price { moves.new ≤ moves.old + merge_cost (moves_for place.now) (merge_shape merge.old) }
    ensures grown { moves.old ≤ moves.new }
{
    aim_words(place, &mut merge.words, &mut merge.cursors, moves);
    words_stand(place, merge.kind, &mut merge.cursors, moves)
}

/// Aims the cursors of each word.
fn aim_words<'v, L: Ledger>(
    place: &AskedPlace<'v>,
    words: &mut Vec<TermSources<'v>>,
    cursors: &mut Vec<Vec<TermCursor<'v>>>,
    moves: &mut Steps<L>,
)
    requires sized { map count_of cursors.old.items ≡ map length words.old.items }
    requires there { All (All (λ term. term.version ≡ place.now.version.now)) words.old.items }
    ensures aimed { map cursors_of cursors.new.items ≡ map (map (aimed_at place.now.doc.0 place.now.span)) words.old.items }
    ensures same { map count_of cursors.new.items ≡ map count_of cursors.old.items }
    ensures words { words.new.items ≡ words.old.items }
    ensures price { moves.new ≤ moves.old + sum_by length words.old.items }
    ensures grown { moves.old ≤ moves.new }
{
    for number in 0..cursors.len() {
        let terms = &mut words[number];
        let word = &mut cursors[number];
        terms.aim(word, place.doc, place.span, moves);
    }
}

/// Whether the words, whose cursors are aimed at the place, stand like this.
fn words_stand<'v, L: Ledger>(
    place: &AskedPlace<'v>,
    kind: MergeKind,
    cursors: &mut Vec<Vec<TermCursor<'v>>>,
    moves: &mut Steps<L>,
) -> bool
    ensures says { result ≡ stand_as (breaks_of (document_at place.now.doc.0 place.now.version.now)) kind
        (all_places (λ cursor. cursor) place.now.span cursors.old.items) }
    ensures lists { word_lists (λ cursor. cursor) cursors.new.items ≡ word_lists (λ cursor. cursor) cursors.old.items }
    ensures price { moves.new ≤ moves.old + 2 * words_left (λ cursor. cursor) cursors.old.items }
    ensures grown { moves.old ≤ moves.new }
{
    let span = place.span;
    let breaks = place.version.breaks(place.doc);
    match kind {
        MergeKind::Close(size) => stand_close(cursors, span, size, moves),
        MergeKind::InOrder => stand_in_order(cursors, span, moves),
        MergeKind::InSentence => stand_together(cursors, span, &Sentences { breaks }, moves),
        MergeKind::InParagraph => stand_together(cursors, span, &Paragraphs { breaks }, moves),
    }
}
