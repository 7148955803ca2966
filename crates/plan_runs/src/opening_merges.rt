//! Words that a merge goes through, opened over a version of the index.

ghost use Rattle.std.specs.Prelude.{◌≡◌, ◌<◌, ◌++◌, ◌∷◌, [], flat_map, length, map, IfOk, OnOk};
ghost use Rattle.std.specs.List.{All};
ghost use Rattle.index_versions.specs.Versions.{terms_of};
ghost use Rattle.plan_kinds.specs.steps.JoinedPhrases.{joined_phrases};
ghost use Rattle.plan_runs.specs.steps.Merges as spec;
ghost use Rattle.plan_runs.specs.steps.RunShapes.{merge_shape};

use crate::choosing::{Opening, terms_for};
use crate::opening::{new_cursors, push_terms};
use crate::run_merge::RunMerge;
use ft_base::{Items, Memory};
use index_versions::{TermCursor, TermSources};
use plan_compiler::{ItemTest, OperatorPlan, OperatorSides, PhraseTests};
use plan_kinds::MergeKind;

/// The words that the operand joins, opened to stand like this.
pub(crate) fn open_merge<'v>(
    opening: &Opening<'v>,
    kind: MergeKind,
    operand: &OperatorPlan,
) -> Result<RunMerge<'v>, Memory>
    ensures { IfOk result (λ run. merge_shape run
        ≡ spec.opened_merge opening.now.looks opening.now.lists.now.stems opening.now.version.now kind operand.now) }
{
    let words = open_operand(opening, operand)?;
    match cursors_of_words(opening, &words) {
        Ok(cursors) => Ok(RunMerge {
            kind,
            words,
            cursors,
        }),
        Err(memory) => {
            drop(words);
            Err(memory)
        }
    }
}

fn open_operand<'v>(
    opening: &Opening<'v>,
    operand: &OperatorPlan,
) -> Result<Vec<TermSources<'v>>, Memory>
    ensures { IfOk result (λ words. words.items
        ≡ map (spec.phrase_terms opening.now.looks opening.now.lists.now.stems opening.now.version.now) (joined_phrases operand.now)) }
{
    let mut words = Vec::new(opening.alloc);
    match push_words(opening, operand, &mut words) {
        Ok(()) => Ok(words),
        Err(memory) => {
            drop(words);
            Err(memory)
        }
    }
}

/// Puts the terms of each phrase that is joined after the others.
#[cycle(words)]
fn push_words<'v>(
    opening: &Opening<'v>,
    plan: &OperatorPlan,
    words: &mut Vec<TermSources<'v>>,
) -> Result<(), Memory>
    ensures { OnOk result (words.new.items ≡ words.old.items
        ++ map (spec.phrase_terms opening.now.looks opening.now.lists.now.stems opening.now.version.now) (joined_phrases plan.now)) }
{
    match plan {
        OperatorPlan::Phrase(phrase) => push_phrase(opening, phrase, words),
        OperatorPlan::Choice(_sides) => Ok(()),
        OperatorPlan::Both(sides) => push_sides(opening, sides, words),
        OperatorPlan::MildNot(_sides) => Ok(()),
        OperatorPlan::Negated(_plan) => Ok(()),
        OperatorPlan::Filtered(_plan) => Ok(()),
    }
}

#[cycle(words)]
fn push_sides<'v>(
    opening: &Opening<'v>,
    sides: &OperatorSides,
    words: &mut Vec<TermSources<'v>>,
) -> Result<(), Memory>
    ensures { OnOk result (words.new.items ≡ words.old.items
        ++ map (spec.phrase_terms opening.now.looks opening.now.lists.now.stems opening.now.version.now)
        (joined_phrases sides.now.left ++ joined_phrases sides.now.right)) }
{
    push_words(opening, &sides.left, words)?;
    push_words(opening, &sides.right, words)
}

fn push_phrase<'v>(
    opening: &Opening<'v>,
    phrase: &PhraseTests,
    words: &mut Vec<TermSources<'v>>,
) -> Result<(), Memory>
    ensures { OnOk result (words.new.items ≡ words.old.items
        ++ spec.phrase_terms opening.now.looks opening.now.lists.now.stems opening.now.version.now phrase.now ∷ []) }
{
    let terms = terms_of_variants(opening, phrase.variants.as_slice())?;
    words.push(terms)?;
    Ok(())
}

/// The terms of all variants of a phrase.
fn terms_of_variants<'v>(
    opening: &Opening<'v>,
    variants: &[Items<ItemTest>],
) -> Result<TermSources<'v>, Memory>
    ensures { IfOk result (λ terms. terms
        ≡ flat_map (flat_map (spec.test_terms opening.now.looks opening.now.lists.now.stems opening.now.version.now)) variants.now) }
{
    let mut terms = TermSources::new(opening.alloc);
    for tests in variants {
        push_variant(opening, tests.as_slice(), &mut terms)?;
    }
    Ok(terms)
}

/// Puts the terms of a variant's words after the others.
fn push_variant<'v>(
    opening: &Opening<'v>,
    tests: &[ItemTest],
    terms: &mut TermSources<'v>,
) -> Result<(), Memory>
    ensures { OnOk result (terms.new ≡ terms.old
        ++ flat_map (spec.test_terms opening.now.looks opening.now.lists.now.stems opening.now.version.now) tests.now) }
{
    for test in tests {
        let numbers = terms_for(opening, test)?;
        push_terms(opening, numbers.as_slice(), terms)?;
    }
    Ok(())
}

/// A cursor for each of the terms of each word.
fn cursors_of_words<'v>(
    opening: &Opening<'v>,
    words: &Vec<TermSources<'v>>,
) -> Result<Vec<Vec<TermCursor<'v>>>, Memory>
    ensures { IfOk result (λ cursors. map (λ word. length word.items) cursors.items ≡ map length words.now.items) }
{
    let mut cursors = Vec::new(opening.alloc);
    for terms in words {
        cursors.push(new_cursors(opening, terms.len())?)?;
    }
    Ok(cursors)
}
