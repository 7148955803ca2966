//! What compiled selections with filters or `not in` need of documents, opened over a version of the index.

ghost use Rattle.std.specs.Prelude.{◌≡◌, map, IfOk};
ghost use Rattle.plan_runs.specs.steps.Skips as spec;
ghost use Rattle.plan_runs.specs.steps.Skips.{skip_of, opened_skip};
ghost use Rattle.index_phrases.specs.steps.Aiming.{variant_words};

use crate::choosing::Opening;
use crate::needs::{NeededSides, Needs};
use crate::opening::open_item;
use ft_base::{Items, Memory};
use index_phrases::WordTerms;
use plan_compiler::{ItemTest, OperatorPlan, OperatorSides};
use plan_kinds::asked_key;

/// What the compiled selection needs: of `not in` the left side, and nothing of a negated selection, which may match where no word
/// stands.
#[cycle(needs)]
pub(crate) fn open_needs<'v>(
    opening: &Opening<'v>,
    plan: &OperatorPlan,
) -> Result<Needs<'v>, Memory>
    ensures { IfOk result (λ needs. skip_of needs ≡ opened_skip opening.now.looks opening.now.lists.now.stems opening.now.version.now plan.now) }
{
    match plan {
        OperatorPlan::Phrase(phrase) => Ok(Needs::Phrase(needed_variants(
            opening,
            phrase.variants.as_slice(),
        )?)),
        OperatorPlan::Choice(sides) => Ok(Needs::OneOf(needed_sides(opening, sides)?)),
        OperatorPlan::Both(sides) => Ok(Needs::AllOf(needed_sides(opening, sides)?)),
        OperatorPlan::MildNot(sides) => open_needs(opening, &sides.left),
        OperatorPlan::Negated(_plan) => Ok(Needs::Nothing),
        OperatorPlan::Filtered(plan) => open_needs(opening, &plan.operand),
    }
}

#[cycle(needs)]
fn needed_sides<'v>(
    opening: &Opening<'v>,
    sides: &OperatorSides,
) -> Result<Box<NeededSides<'v>>, Memory>
    ensures left { IfOk result (λ needed. skip_of needed.value.left
        ≡ opened_skip opening.now.looks opening.now.lists.now.stems opening.now.version.now sides.now.left) }
    ensures right { IfOk result (λ needed. skip_of needed.value.right
        ≡ opened_skip opening.now.looks opening.now.lists.now.stems opening.now.version.now sides.now.right) }
{
    let left = open_needs(opening, &sides.left)?;
    match open_needs(opening, &sides.right) {
        Ok(right) => boxed_sides(opening, left, right),
        Err(memory) => {
            drop(left);
            Err(memory)
        }
    }
}

fn boxed_sides<'v>(
    opening: &Opening<'v>,
    left: Needs<'v>,
    right: Needs<'v>,
) -> Result<Box<NeededSides<'v>>, Memory>
    ensures left { IfOk result (λ needed. skip_of needed.value.left ≡ skip_of left.entry) }
    ensures right { IfOk result (λ needed. skip_of needed.value.right ≡ skip_of right.entry) }
{
    match Box::new(opening.alloc, NeededSides { left, right }) {
        Ok(sides) => Ok(sides),
        Err(failed) => {
            drop(failed);
            Err(Memory)
        }
    }
}

fn needed_variants<'v>(
    opening: &Opening<'v>,
    variants: &[Items<ItemTest>],
) -> Result<Vec<Vec<WordTerms<'v>>>, Memory>
    ensures { IfOk result (λ terms. map variant_words terms.items ≡
        spec.needed_variants opening.now.looks opening.now.lists.now.stems opening.now.version.now variants.now) }
{
    let mut terms = Vec::new(opening.alloc);
    for variant in variants {
        terms.push(needed_items(opening, variant.as_slice())?)?;
    }
    Ok(terms)
}

fn needed_items<'v>(opening: &Opening<'v>, tests: &[ItemTest]) -> Result<Vec<WordTerms<'v>>, Memory>
    ensures { IfOk result (λ terms. terms.items ≡ map (spec.needed_item opening.now.looks opening.now.lists.now.stems opening.now.version.now) tests.now) }
{
    let mut terms = Vec::new(opening.alloc);
    for test in tests {
        terms.push(needed_item(opening, test)?)?;
    }
    Ok(terms)
}

/// The terms of a word that is found by its key. Of other words none is needed: they would be sought among all terms a second time.
fn needed_item<'v>(opening: &Opening<'v>, test: &ItemTest) -> Result<WordTerms<'v>, Memory>
    ensures { IfOk result (λ terms. terms ≡ spec.needed_item opening.now.looks opening.now.lists.now.stems opening.now.version.now test.now) }
{
    match asked_key(test) {
        Some(_key) => open_item(opening, test),
        None => Ok(WordTerms::Any),
    }
}
