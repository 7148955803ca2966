//! The terms of a version whose words pass by their stem.

ghost use Rattle.std.specs.Prelude.{◌≡◌, ◌≤◌, Some, IfOk, bytes_eq, false, length, replicate};
ghost use Rattle.std.specs.Option.{option_copied};
ghost use Rattle.index_versions.specs.Versions.{terms_of};
ghost use Rattle.word_lists.specs.Stems.{is_one_of};
ghost use Rattle.plan_runs.specs.steps.ChosenTerms.{terms_for};
ghost use Rattle.plan_runs.specs.steps.MarkedTerms as spec;
ghost use Rattle.plan_runs.specs.steps.OpenedItems.{word_test};

use crate::choosing::{Opening, push_passing};
use ft_base::{Items, Memory};
use index_versions::Version;
use match_options::PlaceRow;
use plan_compiler::{ItemTest, Looks};
use std::alloc::Global;

/// The stem that words have which pass, where the test asks for one and stems are looked at.
pub(crate) fn asked_stem(looks: Looks, test: &ItemTest) -> Option<&str>
    ensures { option_copied result ≡ spec.asked_stem looks test.now }
{
    match test {
        ItemTest::Any => None,
        ItemTest::ByForms(_test) => None,
        ItemTest::ByStem(stem, _case) => {
            if looks.stems {
                Some(stem.as_str())
            } else {
                None
            }
        }
    }
}

/// The numbers of the terms whose words pass. Only the terms of keys with the stem are looked at.
pub(crate) fn terms_of_stem(
    opening: &Opening<'_>,
    test: &ItemTest,
    stem: &str,
) -> Result<Items<usize>, Memory>
    requires { spec.asked_stem opening.now.looks test.now ≡ Some stem.now }
    ensures { IfOk result (λ numbers. numbers ≡ terms_for (word_test opening.now.looks opening.now.lists.now.stems test.now) opening.now.version.now) }
{
    let keys = opening.lists.keys_of(stem)?;
    let marks = marks_of(opening.alloc, opening.version, keys.as_slice())?;
    marked(opening, test, &marks)
}

/// Of the marked numbers, those of the terms whose words pass.
fn marked(opening: &Opening<'_>, test: &ItemTest, marks: &Vec<bool>) -> Result<Items<usize>, Memory>
    requires size { length marks.now.items ≡ length (terms_of opening.now.version.now) }
    requires all { spec.MarksAll (λ term. word_test opening.now.looks opening.now.lists.now.stems test.now term.word) opening.now.version.now marks.now.items }
    ensures { IfOk result (λ numbers. numbers ≡ terms_for (word_test opening.now.looks opening.now.lists.now.stems test.now) opening.now.version.now) }
{
    let mut numbers = Items::new(opening.alloc);
    let mut row = PlaceRow::new(opening.alloc);
    for number in 0..marks.len() {
        if marks[number] {
            push_passing(opening, test, &mut row, number, &mut numbers)?;
        }
    }
    Ok(numbers)
}

/// For each term of the version whether it is marked: those of the keys are.
fn marks_of(alloc: Global, version: &Version, keys: &[&str]) -> Result<Vec<bool>, Memory>
    ensures size { IfOk result (λ marks. length marks.items ≡ length (terms_of version.now)) }
    ensures all { IfOk result (λ marks. spec.MarksAll (λ term. is_one_of keys.now term.key) version.now marks.items) }
{
    let mut marks = no_marks(alloc, version.term_count())?;
    for key in keys {
        mark_terms(version, key, &mut marks);
    }
    Ok(marks)
}

/// Marks for so many terms, of which none is marked.
fn no_marks(alloc: Global, count: usize) -> Result<Vec<bool>, Memory>
    ensures { IfOk result (λ marks. marks.items ≡ replicate count false) }
{
    Ok(vec![in alloc; false; count]?)
}

/// Marks the terms of the key.
fn mark_terms(version: &Version, key: &str, marks: &mut Vec<bool>)
    requires { length marks.old.items ≡ length (terms_of version.now) }
    ensures size { length marks.new.items ≡ length marks.old.items }
    ensures all { spec.MarksAll (λ term. bytes_eq term.key key.now) version.now marks.new.items }
    ensures kept { spec.KeepsMarks marks.old.items marks.new.items }
{
    if let Some(numbers) = version.find_term(key) {
        mark_numbers(marks, numbers.from as usize, numbers.to as usize);
    }
}

/// Marks the numbers from one on up to the other.
fn mark_numbers(marks: &mut Vec<bool>, from: usize, to: usize)
    requires order { from ≤ to }
    requires within { to ≤ length marks.old.items }
    ensures size { length marks.new.items ≡ length marks.old.items }
    ensures all { spec.MarksBetween from to marks.new.items }
    ensures kept { spec.KeepsMarks marks.old.items marks.new.items }
{
    for number in from..to {
        marks[number] = true;
    }
}
