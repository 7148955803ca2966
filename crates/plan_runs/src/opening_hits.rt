//! Phrases through whose hits one pass goes, opened over a version of the index.

ghost use Rattle.std.specs.Prelude.{◌≡◌, ◌++◌, ◌∷◌, [], map, IfOk, OnOk};
ghost use Rattle.index_phrases.specs.Cursors.{state_of};
ghost use Rattle.plan_runs.specs.steps.Skips.{opened_skip, skip_of};
ghost use Rattle.plan_kinds.specs.steps.JoinedPhrases.{joined_phrases};
ghost use Rattle.plan_runs.specs.steps.Passes as spec;
ghost use Rattle.phrase_merges.specs.Rows.{aims_of, all_aims};

use crate::choosing::Opening;
use crate::needs::Needs;
use crate::opening::{cursors_of_variants, open_items};
use crate::opening_needs::open_needs;
use crate::run_hits::RunHits;
use ft_base::{Items, Memory};
use index_phrases::PhraseCursor;
use plan_compiler::{ItemTest, OperatorPlan, OperatorSides, PhraseTests};
use plan_kinds::PassKind;

/// The phrases that the operand joins, opened to stand like this, and what the whole selection needs.
pub(crate) fn open_hits<'v>(
    opening: &Opening<'v>,
    kind: PassKind,
    operand: &OperatorPlan,
    plan: &OperatorPlan,
) -> Result<Box<RunHits<'v>>, Memory>
    ensures kind { IfOk result (λ run. run.value.kind ≡ kind) }
    ensures phrases { IfOk result (λ run. all_aims state_of run.value.phrases.items
        ≡ spec.opened_phrases opening.now.looks opening.now.lists.now.stems opening.now.version.now operand.now) }
    ensures skips { IfOk result (λ run. skip_of run.value.needs
        ≡ opened_skip opening.now.looks opening.now.lists.now.stems opening.now.version.now plan.now) }
{
    let needs = open_needs(opening, plan)?;
    match open_phrases(opening, operand) {
        Ok(phrases) => boxed_hits(
            opening,
            RunHits {
                kind,
                phrases,
                needs,
            },
        ),
        Err(memory) => {
            drop(needs);
            Err(memory)
        }
    }
}

fn boxed_hits<'v>(opening: &Opening<'v>, hits: RunHits<'v>) -> Result<Box<RunHits<'v>>, Memory>
    ensures kind { IfOk result (λ run. run.value.kind ≡ hits.entry.kind) }
    ensures phrases { IfOk result (λ run. all_aims state_of run.value.phrases.items ≡ all_aims state_of hits.entry.phrases.items) }
    ensures skips { IfOk result (λ run. skip_of run.value.needs ≡ skip_of hits.entry.needs) }
{
    match Box::new(opening.alloc, hits) {
        Ok(run) => Ok(run),
        Err(failed) => {
            drop(failed);
            Err(Memory)
        }
    }
}

fn open_phrases<'v>(
    opening: &Opening<'v>,
    operand: &OperatorPlan,
) -> Result<Vec<Vec<PhraseCursor<'v>>>, Memory>
    ensures { IfOk result (λ phrases. all_aims state_of phrases.items
        ≡ spec.opened_phrases opening.now.looks opening.now.lists.now.stems opening.now.version.now operand.now) }
{
    let mut phrases = Vec::new(opening.alloc);
    match push_phrases(opening, operand, &mut phrases) {
        Ok(()) => Ok(phrases),
        Err(memory) => {
            drop(phrases);
            Err(memory)
        }
    }
}

/// Puts each phrase that is joined after the others.
#[cycle(phrases)]
fn push_phrases<'v>(
    opening: &Opening<'v>,
    plan: &OperatorPlan,
    phrases: &mut Vec<Vec<PhraseCursor<'v>>>,
) -> Result<(), Memory>
    ensures { OnOk result (all_aims state_of phrases.new.items ≡ all_aims state_of phrases.old.items
        ++ map (spec.phrase_variants opening.now.looks opening.now.lists.now.stems opening.now.version.now) (joined_phrases plan.now)) }
{
    match plan {
        OperatorPlan::Phrase(phrase) => push_phrase(opening, phrase, phrases),
        OperatorPlan::Choice(_sides) => Ok(()),
        OperatorPlan::Both(sides) => push_sides(opening, sides, phrases),
        OperatorPlan::MildNot(_sides) => Ok(()),
        OperatorPlan::Negated(_plan) => Ok(()),
        OperatorPlan::Filtered(_plan) => Ok(()),
    }
}

#[cycle(phrases)]
fn push_sides<'v>(
    opening: &Opening<'v>,
    sides: &OperatorSides,
    phrases: &mut Vec<Vec<PhraseCursor<'v>>>,
) -> Result<(), Memory>
    ensures { OnOk result (all_aims state_of phrases.new.items ≡ all_aims state_of phrases.old.items
        ++ map (spec.phrase_variants opening.now.looks opening.now.lists.now.stems opening.now.version.now)
        (joined_phrases sides.now.left ++ joined_phrases sides.now.right)) }
{
    push_phrases(opening, &sides.left, phrases)?;
    push_phrases(opening, &sides.right, phrases)
}

fn push_phrase<'v>(
    opening: &Opening<'v>,
    phrase: &PhraseTests,
    phrases: &mut Vec<Vec<PhraseCursor<'v>>>,
) -> Result<(), Memory>
    ensures { OnOk result (all_aims state_of phrases.new.items ≡ all_aims state_of phrases.old.items
        ++ spec.phrase_variants opening.now.looks opening.now.lists.now.stems opening.now.version.now phrase.now ∷ []) }
{
    let variants = open_each(opening, phrase.number, phrase.variants.as_slice())?;
    phrases.push(variants)?;
    Ok(())
}

/// A cursor for each of the variants.
pub(crate) fn open_each<'v>(
    opening: &Opening<'v>,
    number: u32,
    variants: &[Items<ItemTest>],
) -> Result<Vec<PhraseCursor<'v>>, Memory>
    ensures { IfOk result (λ cursors. aims_of state_of cursors.items
        ≡ map (spec.variant_aims opening.now.looks opening.now.lists.now.stems opening.now.version.now number) variants.now) }
{
    let mut cursors = Vec::new(opening.alloc);
    for tests in variants {
        cursors.push(open_variant(opening, number, tests.as_slice())?)?;
    }
    Ok(cursors)
}

fn open_variant<'v>(
    opening: &Opening<'v>,
    number: u32,
    tests: &[ItemTest],
) -> Result<PhraseCursor<'v>, Memory>
    ensures { IfOk result (λ cursor. (state_of cursor).aims
        ≡ spec.variant_aims opening.now.looks opening.now.lists.now.stems opening.now.version.now number tests.now) }
{
    let mut terms = Vec::new(opening.alloc);
    terms.push(open_items(opening, tests)?)?;
    let variants = cursors_of_variants(opening, &terms)?;
    Ok(PhraseCursor::new(opening.version, number, terms, variants))
}
