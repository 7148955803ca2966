//! How often the words of an opened selection occur in a span, as far as it has to be known.

ghost use Rattle.std.specs.Prelude.{◌≡◌, ◌≤◌, ◌+◌, ◌*◌, min, map, sum};
ghost use Rattle.std.specs.List.{All, sum_by};
ghost use Rattle.all_matches.specs.Counting.{product};
ghost use Rattle.plan_runs.specs.steps.RunCosts.{group_cost, moves_for, phrase_cost, words_cost};
ghost use Rattle.plan_runs.specs.steps.RunShapes.{group_shape, phrase_shape, words_shape};
ghost use Rattle.plan_runs.specs.steps.RunTruth.{IsGroup, IsWords, group_count, phrase_total, words_say, words_total};
ghost use Rattle.plan_runs.specs.steps.Telling as spec;
ghost use Rattle.plan_runs.specs.steps.AskedPlaces.{text_at};

use crate::aiming::aim_variants;
use crate::asked_place::AskedPlace;
use crate::occurrence_ranges::is_enough;
use crate::run_node::{RunGroup, RunPhrase, RunWords};
use ft_base::{Range, Steps};
use place_merges::count_places;
use std::sync::ledger::Ledger;

/// Whether the words occur in the span as often as they have to.
pub(crate) fn words_hold<'v, L: Ledger>(
    place: &AskedPlace<'v>,
    words: &mut RunWords<'v>,
    moves: &mut Steps<L>,
) -> bool
    requires { IsWords place.now.version.now (words_shape words.old) }
    ensures says { result ≡ words_say place.now.version.now (words_shape words.old) (text_at place.now) }
    ensures same { words_shape words.new ≡ words_shape words.old }
    ensures price { moves.new ≤ moves.old + words_cost (moves_for place.now) (words_shape words.old) }
    ensures grown { moves.old ≤ moves.new }
{
    let times = words.times;
    let count = count_words(place, words, telling(times), moves);
    is_enough(times, count)
}

/// The least number that tells as much as every greater one.
fn telling(times: Option<Range>) -> u64
    ensures { result ≡ spec.telling times }
{
    match times {
        None => 1,
        Some(range) => telling_in(range),
    }
}

fn telling_in(range: Range) -> u64
    ensures { result ≡ spec.telling_in range }
{
    match range {
        Range::Exactly(n) => n as u64 + 1,
        Range::AtLeast(n) => n as u64,
        Range::AtMost(n) => n as u64 + 1,
        Range::FromTo(_low, high) => high as u64 + 1,
    }
}

/// How often the words occur in the span; counting stops at `most`.
fn count_words<'v, L: Ledger>(
    place: &AskedPlace<'v>,
    words: &mut RunWords<'v>,
    most: u64,
    moves: &mut Steps<L>,
) -> u64
    requires { IsWords place.now.version.now (words_shape words.old) }
    ensures count { result ≡ min (words_total place.now.version.now (words_shape words.old) (text_at place.now)) most }
    ensures same { words_shape words.new ≡ words_shape words.old }
    ensures price { moves.new ≤ moves.old + words_cost (moves_for place.now) (words_shape words.old) }
    ensures grown { moves.old ≤ moves.new }
{
    if words.all {
        product_of_counts(place, &mut words.phrases, most, moves)
    } else {
        sum_of_counts(place, &mut words.phrases, most, moves)
    }
}

fn sum_upto(most: u64, a: u64, b: u64) -> u64
    ensures { result ≡ min (a + b) most }
{
    a.saturating_add(b).min(most)
}

fn product_upto(most: u64, a: u64, b: u64) -> u64
    ensures { result ≡ min (a * b) most }
{
    a.saturating_mul(b).min(most)
}

fn sum_of_counts<'v, L: Ledger>(
    place: &AskedPlace<'v>,
    phrases: &mut Vec<RunPhrase<'v>>,
    most: u64,
    moves: &mut Steps<L>,
) -> u64
    requires { All (All (IsGroup place.now.version.now)) (map phrase_shape phrases.old.items) }
    ensures count { result ≡
        min (sum (map (λ phrase. phrase_total place.now.version.now phrase (text_at place.now)) (map phrase_shape phrases.old.items))) most }
    ensures same { map phrase_shape phrases.new.items ≡ map phrase_shape phrases.old.items }
    ensures price { moves.new ≤ moves.old + sum_by (phrase_cost (moves_for place.now)) (map phrase_shape phrases.old.items) }
    ensures grown { moves.old ≤ moves.new }
{
    let mut total: u64 = 0;
    for number in 0..phrases.len() {
        let count = count_phrase(place, &mut phrases[number], most, moves);
        total = sum_upto(most, total, count);
    }
    total
}

fn product_of_counts<'v, L: Ledger>(
    place: &AskedPlace<'v>,
    phrases: &mut Vec<RunPhrase<'v>>,
    most: u64,
    moves: &mut Steps<L>,
) -> u64
    requires { All (All (IsGroup place.now.version.now)) (map phrase_shape phrases.old.items) }
    ensures count { result ≡
        min (product (map (λ phrase. phrase_total place.now.version.now phrase (text_at place.now)) (map phrase_shape phrases.old.items))) most }
    ensures same { map phrase_shape phrases.new.items ≡ map phrase_shape phrases.old.items }
    ensures price { moves.new ≤ moves.old + sum_by (phrase_cost (moves_for place.now)) (map phrase_shape phrases.old.items) }
    ensures grown { moves.old ≤ moves.new }
{
    let mut total = most.min(1);
    for number in 0..phrases.len() {
        let count = count_phrase(place, &mut phrases[number], most, moves);
        total = product_upto(most, total, count);
    }
    total
}

fn count_phrase<'v, L: Ledger>(
    place: &AskedPlace<'v>,
    phrase: &mut RunPhrase<'v>,
    most: u64,
    moves: &mut Steps<L>,
) -> u64
    requires { All (IsGroup place.now.version.now) (phrase_shape phrase.old) }
    ensures count { result ≡ min (phrase_total place.now.version.now (phrase_shape phrase.old) (text_at place.now)) most }
    ensures same { phrase_shape phrase.new ≡ phrase_shape phrase.old }
    ensures price { moves.new ≤ moves.old + phrase_cost (moves_for place.now) (phrase_shape phrase.old) }
    ensures grown { moves.old ≤ moves.new }
{
    let mut total: u64 = 0;
    for number in 0..phrase.groups.len() {
        let count = count_group(place, &mut phrase.groups[number], most, moves);
        total = sum_upto(most, total, count);
    }
    total
}

/// At how many places of the span one of the variants stands; counting stops at `most`.
fn count_group<'v, L: Ledger>(
    place: &AskedPlace<'v>,
    group: &mut RunGroup<'v>,
    most: u64,
    moves: &mut Steps<L>,
) -> u64
    requires { IsGroup place.now.version.now (group_shape group.old) }
    ensures count { result ≡ min (group_count place.now.version.now (group_shape group.old) (text_at place.now)) most }
    ensures same { group_shape group.new ≡ group_shape group.old }
    ensures price { moves.new ≤ moves.old + group_cost (moves_for place.now) (group_shape group.old) }
    ensures grown { moves.old ≤ moves.new }
{
    aim_variants(place, &mut group.terms, &mut group.variants, moves);
    count_places(&mut group.variants, place.span, most, moves)
}
