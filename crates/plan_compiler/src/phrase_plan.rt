//! Phrases, ready to be counted.

ghost use Rattle.std.specs.Prelude.{◌≡◌, [], map, length, nat_eq, IfOk, OnOk};
ghost use Rattle.std.specs.Map.{lookup};
ghost use Rattle.all_matches.specs.Counting.{by_length, with_variant};
ghost use Rattle.match_options.specs.Items.{item};
ghost use Rattle.plan_compiler.specs.ItemTests.{asks_nothing, passes};
ghost use Rattle.plan_compiler.specs.GroupedTests.{group_tests, put_after};
ghost use Rattle.plan_compiler.specs.WordsMeaning as spec;

use crate::item_matching::ItemTest;
use crate::reading::{Reading, item_test};
use crate::variants::phrases_for;
use ft_base::{Items, Memory};
use indexmap::IndexMap;
use match_options::QueryItem;
use std::alloc::Global;

/// A phrase of a query with all that it stands for.
#[derive(Drop)]
pub struct PhrasePlan {
    /// What the words of each variant have to be, the variants of one length together.
    pub groups: Items<Items<Items<ItemTest>>>,
}

/// The plan of a phrase.
pub(crate) fn phrase_plan(
    alloc: Global,
    reading: &Reading<'_>,
    phrase: &[QueryItem],
) -> Result<PhrasePlan, Memory>
    ensures { IfOk result (λ plan. spec.plan_tests plan ≡ spec.grouped_tests reading.now (map item phrase.now)) }
{
    let phrases = phrases_for(alloc, reading, phrase)?;
    let groups = by_length(alloc, reading, phrases.as_slice())?;
    Ok(PhrasePlan {
        groups: without_lengths(alloc, groups)?,
    })
}

/// The tests of phrases by their numbers of words.
fn by_length(
    alloc: Global,
    reading: &Reading<'_>,
    phrases: &[Items<QueryItem>],
) -> Result<IndexMap<usize, Items<Items<ItemTest>>>, Memory>
    ensures { IfOk result (λ groups. map group_tests groups.entries ≡ by_length (map (map (spec.item_test reading.now)) (map (map item) phrases.now))) }
{
    let mut groups = IndexMap::new(alloc);
    match add_variants(alloc, reading, phrases, &mut groups) {
        Ok(()) => Ok(groups),
        Err(memory) => {
            drop(groups);
            Err(memory)
        }
    }
}

/// Puts the tests of each phrase to those of their number.
fn add_variants(
    alloc: Global,
    reading: &Reading<'_>,
    phrases: &[Items<QueryItem>],
    groups: &mut IndexMap<usize, Items<Items<ItemTest>>>,
) -> Result<(), Memory>
    requires { groups.old.entries ≡ [] }
    ensures { OnOk result (map group_tests groups.new.entries ≡ by_length (map (map (spec.item_test reading.now)) (map (map item) phrases.now))) }
{
    for phrase in phrases {
        let tests = phrase_tests(alloc, reading, phrase.as_slice())?;
        add_variant(alloc, groups, tests)?;
    }
    Ok(())
}

/// Puts the tests to those of their number; a phrase without words stands nowhere.
fn add_variant(
    alloc: Global,
    groups: &mut IndexMap<usize, Items<Items<ItemTest>>>,
    tests: Items<ItemTest>,
) -> Result<(), Memory>
    ensures { OnOk result (groups.new.entries ≡ with_variant groups.old.entries tests) }
{
    let count = tests.len();
    if count == 0 {
        return Ok(());
    }
    put_tests(alloc, groups, count, tests)?;
    Ok(())
}

/// Puts the tests after those of their number, or as the first of it.
fn put_tests(
    alloc: Global,
    groups: &mut IndexMap<usize, Items<Items<ItemTest>>>,
    count: usize,
    tests: Items<ItemTest>,
) -> Result<(), Memory>
    requires { count ≡ length tests }
    ensures { OnOk result (groups.new.entries ≡ put_after groups.old.entries tests (lookup (nat_eq (length tests)) groups.old.entries)) }
{
    if let Some(variants) = groups.get_mut(&count) {
        return variants.push(tests);
    }
    let mut variants = Items::new(alloc);
    variants.push(tests)?;
    groups.insert(count, variants)?;
    Ok(())
}

fn without_lengths(
    alloc: Global,
    groups: IndexMap<usize, Items<Items<ItemTest>>>,
) -> Result<Items<Items<Items<ItemTest>>>, Memory>
    ensures { IfOk result (λ list. list ≡ map (λ group. group.1) groups.entries) }
{
    let mut list = Items::new(alloc);
    for (_length, variants) in groups {
        list.push(variants)?;
    }
    Ok(list)
}

/// What the words of a phrase have to be.
pub(crate) fn phrase_tests(
    alloc: Global,
    reading: &Reading<'_>,
    phrase: &[QueryItem],
) -> Result<Items<ItemTest>, Memory>
    ensures passes { IfOk result (λ tests. map passes tests ≡ map (spec.item_test reading.now) (map item phrase.now)) }
    ensures asks { IfOk result (λ tests. map asks_nothing tests ≡ map (spec.reads_any reading.now) (map item phrase.now)) }
{
    let mut tests = Items::new(alloc);
    for item in phrase {
        tests.push(item_test(alloc, reading, item)?)?;
    }
    Ok(tests)
}
