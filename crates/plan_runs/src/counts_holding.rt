//! Whether words that are counted occur often enough, and not too often, in one window, sentence or paragraph of a span.

ghost use Rattle.std.specs.Prelude.{◌≡◌, ◌+◌, ◌*◌, ◌≤◌, map, nat_lt, true};
ghost use Rattle.std.specs.List.{All, list_any, sum_by};
ghost use Rattle.count_merges.specs.Groups.{all_counted, backs_of, fronts_of, group_left, items_left, lists_of_items};
ghost use Rattle.counted_shapes.specs.Accepted.{fit_in};
ghost use Rattle.index_meaning.specs.Documents.{breaks_of, document_at};
ghost use Rattle.index_phrases.specs.steps.Aiming.{AreThere};
ghost use Rattle.place_merges.specs.Sources.{wanted_words};
ghost use Rattle.plan_runs.specs.steps.AskedPlaces.{asked_at, wanted_at};
ghost use Rattle.plan_runs.specs.steps.Counts.{AreCounts, counts_cost, counts_say, field_unit, group_sizes, unit_number};
ghost use Rattle.plan_runs.specs.steps.RunCosts.{moves_for};
ghost use Rattle.plan_runs.specs.steps.RunShapes.{back_sizes, counts_shape, front_sizes, item_backs, item_bounds, item_fronts, term_counts, term_groups};

use crate::aiming::aim_variants;
use crate::asked_place::AskedPlace;
use crate::run_counts::{CountedTerms, RunCounts, TermGroup};
use crate::units::{Paragraphs, Sentences};
use count_merges::{CountedItem, EachWord, VariantGroup, fit_in_unit, fit_in_window};
use counted_shapes::Field;
use ft_base::{Steps, Unit};
use index_versions::TermCursor;
use std::sync::ledger::Ledger;

/// Whether some window, sentence or paragraph of the span has enough of each item, and not too much.
pub(crate) fn counts_hold<'v, L: Ledger>(
    place: &AskedPlace<'v>,
    counts: &mut RunCounts<'v>,
    moves: &mut Steps<L>,
) -> bool
    requires { AreCounts place.now.version.now (counts_shape counts.old) }
    ensures says { result ≡ counts_say place.now.version.now (counts_shape counts.old) (asked_at place.now) }
    ensures same { counts_shape counts.new ≡ counts_shape counts.old }
    ensures price { moves.new ≤ moves.old + 2 * counts_cost (moves_for place.now) (counts_shape counts.old) }
    ensures grown { moves.old ≤ moves.new }
{
    aim_items(place, &mut counts.words, &mut counts.items, moves);
    items_fit(place, counts.field, &mut counts.items, moves)
}

/// Aims the cursors of each item.
fn aim_items<'v, L: Ledger>(
    place: &AskedPlace<'v>,
    words: &mut Vec<CountedTerms<'v>>,
    items: &mut Vec<CountedItem<TermCursor<'v>>>,
    moves: &mut Steps<L>,
)
    requires fronts { map item_fronts items.old.items ≡ map (λ item. group_sizes item.groups) (map term_counts words.old.items) }
    requires backs { map item_backs items.old.items ≡ map (λ item. group_sizes item.groups) (map term_counts words.old.items) }
    requires there { All (λ item. All (λ group. All (All (AreThere place.now.version.now)) group.1) item.groups) (map term_counts words.old.items) }
    ensures fronts { fronts_of (λ cursor. cursor) items.new.items
        ≡ map (λ item. map (λ group. map (map (wanted_at place.now)) group.1) item.groups) (map term_counts words.old.items) }
    ensures backs { backs_of (λ cursor. cursor) items.new.items ≡ fronts_of (λ cursor. cursor) items.new.items }
    ensures bounds { map item_bounds items.new.items ≡ map item_bounds items.old.items }
    ensures front_sizes { map item_fronts items.new.items ≡ map item_fronts items.old.items }
    ensures back_sizes { map item_backs items.new.items ≡ map item_backs items.old.items }
    ensures words { map term_counts words.new.items ≡ map term_counts words.old.items }
    ensures price { moves.new + 2 * items_left (λ cursor. cursor) items.new.items
        ≤ moves.old + 2 * sum_by (λ item. sum_by (λ group. sum_by (sum_by (moves_for place.now)) group.1) item.groups) (map term_counts words.old.items) }
    ensures grown { moves.old ≤ moves.new }
{
    for number in 0..items.len() {
        aim_groups(
            place,
            &mut words[number].groups,
            &mut items[number].groups,
            moves,
        );
    }
}

/// Aims the fronts and the backs of the groups of an item.
fn aim_groups<'v, L: Ledger>(
    place: &AskedPlace<'v>,
    terms: &mut Vec<TermGroup<'v>>,
    groups: &mut Vec<VariantGroup<TermCursor<'v>>>,
    moves: &mut Steps<L>,
)
    requires fronts { front_sizes groups.old.items ≡ group_sizes (term_groups terms.old.items) }
    requires backs { back_sizes groups.old.items ≡ group_sizes (term_groups terms.old.items) }
    requires there { All (λ group. All (All (AreThere place.now.version.now)) group.1) (term_groups terms.old.items) }
    ensures fronts { map (λ group. wanted_words (λ cursor. cursor) group.front.items) groups.new.items
        ≡ map (λ group. map (map (wanted_at place.now)) group.1) (term_groups terms.old.items) }
    ensures backs { map (λ group. wanted_words (λ cursor. cursor) group.back.items) groups.new.items
        ≡ map (λ group. map (map (wanted_at place.now)) group.1) (term_groups terms.old.items) }
    ensures front_sizes { front_sizes groups.new.items ≡ front_sizes groups.old.items }
    ensures back_sizes { back_sizes groups.new.items ≡ back_sizes groups.old.items }
    ensures terms { term_groups terms.new.items ≡ term_groups terms.old.items }
    ensures price { moves.new + 2 * sum_by (group_left (λ cursor. cursor)) groups.new.items
        ≤ moves.old + 2 * sum_by (λ group. sum_by (sum_by (moves_for place.now)) group.1) (term_groups terms.old.items) }
    ensures grown { moves.old ≤ moves.new }
{
    for number in 0..groups.len() {
        let group = &mut groups[number];
        let variants = &mut terms[number].variants;
        aim_variants(place, variants, &mut group.front, moves);
        aim_variants(place, variants, &mut group.back, moves);
    }
}

/// Whether the items, whose cursors are aimed at the place, fit into one field.
fn items_fit<'v, L: Ledger>(
    place: &AskedPlace<'v>,
    field: Field,
    items: &mut Vec<CountedItem<TermCursor<'v>>>,
    moves: &mut Steps<L>,
) -> bool
    requires alike { backs_of (λ cursor. cursor) items.old.items ≡ fronts_of (λ cursor. cursor) items.old.items }
    requires asks { list_any (λ item. nat_lt 0 item.least) items.old.items ≡ true }
    ensures says { result ≡ fit_in field (all_counted (λ cursor. cursor)
        (unit_number (field_unit field) (breaks_of (document_at place.now.doc.0 place.now.version.now))) place.now.span items.old.items) }
    ensures lists { lists_of_items (λ cursor. cursor) items.new.items ≡ lists_of_items (λ cursor. cursor) items.old.items }
    ensures price { moves.new ≤ moves.old + 2 * items_left (λ cursor. cursor) items.old.items }
    ensures grown { moves.old ≤ moves.new }
{
    let span = place.span;
    let breaks = place.version.breaks(place.doc);
    match field {
        Field::Window(size, Unit::Words) => fit_in_window(items, span, size, &EachWord, moves),
        Field::Window(size, Unit::Sentences) => {
            fit_in_window(items, span, size, &Sentences { breaks }, moves)
        }
        Field::Window(size, Unit::Paragraphs) => {
            fit_in_window(items, span, size, &Paragraphs { breaks }, moves)
        }
        Field::Sentence => fit_in_unit(items, span, &Sentences { breaks }, moves),
        Field::Paragraph => fit_in_unit(items, span, &Paragraphs { breaks }, moves),
    }
}
