//! The phrases that are joined by `ftand`, where a plan is nothing else.

ghost use Rattle.std.specs.Prelude.{◌≡◌, ◌&&◌, not};
ghost use Rattle.std.specs.List.{list_all};
ghost use Rattle.plan_compiler.specs.CheapPlans as plans;
ghost use Rattle.plan_compiler.specs.ItemTests as keys;
ghost use Rattle.plan_kinds.specs.steps.JoinedPhrases as spec;

use crate::asked_keys::asks_nothing;
use crate::joined::Joined;
use crate::phrases::phrase_of;
use ft_base::Items;
use plan_compiler::{ItemTest, OperatorPlan, OperatorSides, PhraseTests};

/// The phrases that are joined, if there is nothing but phrases, numbered one after the other.
#[cycle(joined)]
pub(crate) fn joined_of(plan: &OperatorPlan) -> Option<Joined>
    ensures { result ≡ spec.joined_of plan.now }
{
    match plan {
        OperatorPlan::Phrase(phrase) => Some(alone(phrase)),
        OperatorPlan::Choice(_sides) => None,
        OperatorPlan::Both(sides) => joined_sides(sides),
        OperatorPlan::MildNot(_sides) => None,
        OperatorPlan::Negated(_plan) => None,
        OperatorPlan::Filtered(_plan) => None,
    }
}

#[cycle(joined)]
fn joined_sides(sides: &OperatorSides) -> Option<Joined>
    ensures { result ≡ spec.one_more (spec.joined_of sides.now.left) (spec.phrase_of sides.now.right) }
{
    match joined_of(&sides.left) {
        None => None,
        Some(before) => match phrase_of(&sides.right) {
            None => None,
            Some(phrase) => next_to(before, phrase),
        },
    }
}

/// The phrases with one more, if it has the number after theirs.
fn next_to(before: Joined, phrase: &PhraseTests) -> Option<Joined>
    ensures { result ≡ spec.next_to before phrase.now }
{
    if phrase.number.saturating_sub(before.last) == 1 {
        Some(Joined {
            first: before.first,
            last: phrase.number,
            are_words: before.are_words && is_word(phrase),
        })
    } else {
        None
    }
}

fn alone(phrase: &PhraseTests) -> Joined
    ensures { result ≡ spec.alone phrase.now }
{
    Joined {
        first: phrase.number,
        last: phrase.number,
        are_words: is_word(phrase),
    }
}

/// Whether the phrases are two.
pub(crate) fn are_two(joined: Joined) -> bool
    ensures { result ≡ spec.are_two joined }
{
    joined.last.saturating_sub(joined.first) == 1
}

/// Whether each variant is one word, and not any word.
pub(crate) fn is_word(phrase: &PhraseTests) -> bool
    ensures { result ≡ plans.is_word phrase.now }
{
    are_single(phrase.variants.as_slice())
}

fn are_single(variants: &[Items<ItemTest>]) -> bool
    ensures { result ≡ list_all plans.is_single variants.now }
{
    for tests in variants {
        if !is_single(tests.as_slice()) {
            return false;
        }
    }
    true
}

/// Whether a variant is one word, and not any word.
fn is_single(tests: &[ItemTest]) -> bool
    ensures { result ≡ plans.is_single tests.now }
{
    tests.len() == 1 && each_asks(tests)
}

fn each_asks(tests: &[ItemTest]) -> bool
    ensures { result ≡ list_all (λ test. not (keys.asks_nothing test)) tests.now }
{
    for test in tests {
        if asks_nothing(test) {
            return false;
        }
    }
    true
}
