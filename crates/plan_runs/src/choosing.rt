//! The terms of a version whose words pass a test.

ghost use Rattle.std.specs.Prelude.{◌≡◌, ◌<◌, ◌≤◌, ◌-◌, ◌++◌, ◌∷◌, [], cond, length, IfOk, OnOk};
ghost use Rattle.std.specs.List.{range_with_len};
ghost use Rattle.index_meaning.specs.Entries.{found};
ghost use Rattle.index_versions.specs.Versions.{term_at, terms_of};
ghost use Rattle.plan_runs.specs.steps.ChosenTerms as spec;
ghost use Rattle.plan_runs.specs.steps.OpenedItems.{word_test};

use crate::stem_terms::{asked_stem, terms_of_stem};
use ft_base::{Items, Memory};
use index_versions::Version;
use match_options::PlaceRow;
use plan_compiler::{ItemTest, Lists, Looks, TextWord};
use plan_kinds::asked_key;
use std::alloc::Global;

/// The version over which a plan is opened, and how the plan looks at words.
#[derive(Clone, Copy)]
pub struct Opening<'a> {
    pub alloc: Global,
    pub version: &'a Version,
    pub looks: Looks,
    pub lists: &'a Lists,
}

/// The numbers of the terms whose words pass, ascending. Where the words that pass have one key, or one stem, only the terms of such
/// keys are looked at.
pub(crate) fn terms_for(opening: &Opening<'_>, test: &ItemTest) -> Result<Items<usize>, Memory>
    ensures { IfOk result (λ numbers. numbers ≡ spec.terms_for (word_test opening.now.looks opening.now.lists.now.stems test.now) opening.now.version.now) }
{
    match asked_key(test) {
        Some(key) => terms_of_key(opening, test, key),
        None => terms_by_stem(opening, test),
    }
}

/// The numbers of the terms whose words pass. Where these have one stem, only the terms of keys with it are looked at.
fn terms_by_stem(opening: &Opening<'_>, test: &ItemTest) -> Result<Items<usize>, Memory>
    ensures { IfOk result (λ numbers. numbers ≡ spec.terms_for (word_test opening.now.looks opening.now.lists.now.stems test.now) opening.now.version.now) }
{
    match asked_stem(opening.looks, test) {
        Some(stem) => terms_of_stem(opening, test, stem),
        None => passing(opening, test, 0, opening.version.term_count()),
    }
}

/// The numbers of the terms of that key whose words pass.
fn terms_of_key(opening: &Opening<'_>, test: &ItemTest, key: &str) -> Result<Items<usize>, Memory>
    ensures { IfOk result (λ numbers. numbers ≡ spec.passing (word_test opening.now.looks opening.now.lists.now.stems test.now) opening.now.version.now
        (spec.numbers_in (found key.now (terms_of opening.now.version.now)))) }
{
    match opening.version.find_term(key) {
        Some(numbers) => passing(opening, test, numbers.from as usize, numbers.to as usize),
        None => Ok(Items::new(opening.alloc)),
    }
}

/// Of the numbers from one on up to the other, those of the terms whose words pass.
fn passing(
    opening: &Opening<'_>,
    test: &ItemTest,
    from: usize,
    to: usize,
) -> Result<Items<usize>, Memory>
    requires order { from ≤ to }
    requires within { to ≤ length (terms_of opening.now.version.now) }
    ensures { IfOk result (λ numbers. numbers ≡ spec.passing (word_test opening.now.looks opening.now.lists.now.stems test.now) opening.now.version.now
        (range_with_len from (to - from))) }
{
    let mut numbers = Items::new(opening.alloc);
    let mut row = PlaceRow::new(opening.alloc);
    for number in from..to {
        push_passing(opening, test, &mut row, number, &mut numbers)?;
    }
    Ok(numbers)
}

/// Puts the number to the end, where the word of the term of that number passes.
pub(crate) fn push_passing(
    opening: &Opening<'_>,
    test: &ItemTest,
    row: &mut PlaceRow,
    number: usize,
    numbers: &mut Items<usize>,
) -> Result<(), Memory>
    requires { number < length (terms_of opening.now.version.now) }
    ensures { OnOk result (numbers.new ≡ numbers.old ++ cond
        (word_test opening.now.looks opening.now.lists.now.stems test.now (term_at number opening.now.version.now).word) (number ∷ []) []) }
{
    if passes(opening, test, row, number)? {
        numbers.push(number)?;
    }
    Ok(())
}

/// Whether the word of the term of that number passes. Where its key tells, nothing is made of the word.
fn passes(
    opening: &Opening<'_>,
    test: &ItemTest,
    row: &mut PlaceRow,
    number: usize,
) -> Result<bool, Memory>
    requires { number < length (terms_of opening.now.version.now) }
    ensures { IfOk result (λ passed.
        passed ≡ word_test opening.now.looks opening.now.lists.now.stems test.now (term_at number opening.now.version.now).word) }
{
    let term = opening.version.term(number);
    match test.passes_key(opening.looks, opening.lists, term.key, row)? {
        Some(passed) => Ok(passed),
        None => word_passes(opening, test, row, term.word),
    }
}

/// Whether a word passes, by all that is looked at of it.
fn word_passes(
    opening: &Opening<'_>,
    test: &ItemTest,
    row: &mut PlaceRow,
    word: &str,
) -> Result<bool, Memory>
    ensures { IfOk result (λ passed. passed ≡ word_test opening.now.looks opening.now.lists.now.stems test.now word.now) }
{
    let word = TextWord::new(opening.alloc, opening.looks, opening.lists, word)?;
    test.passes_in(&word, row)
}
