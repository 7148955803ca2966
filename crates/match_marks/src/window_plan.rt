//! Which selections are a window in words round phrases, of each of which no hit begins or ends before an earlier one.

ghost use Rattle.std.specs.Prelude.{◌≡◌, ◌&&◌, ◌==◌, length, option_map};
ghost use Rattle.std.specs.List.{list_all};
ghost use Rattle.match_marks.specs.steps.WindowRuns as spec;

use ft_base::{Filter, Items, Unit};
use plan_compiler::{FilteredPlan, ItemTest, OperatorPlan, OperatorSides};

/// How many words the window has, one at least, and the operand that joins the phrases.
pub(crate) fn window_of(plan: &OperatorPlan) -> Option<(u32, &OperatorPlan)>
    ensures { option_map (λ window. (window.0, window.1.now)) result ≡ spec.window_of plan.now }
{
    match plan {
        OperatorPlan::Phrase(_phrase) => None,
        OperatorPlan::Choice(_sides) => None,
        OperatorPlan::Both(_sides) => None,
        OperatorPlan::MildNot(_sides) => None,
        OperatorPlan::Negated(_plan) => None,
        OperatorPlan::Filtered(plan) => window_over(plan),
    }
}

fn window_over(plan: &FilteredPlan) -> Option<(u32, &OperatorPlan)>
    ensures { option_map (λ window. (window.0, window.1.now)) result ≡ spec.window_over plan.now }
{
    let operand = &plan.operand;
    let size = words_of_window(plan.kind);
    if size > 0 && joins_phrases(operand) {
        Some((size, operand))
    } else {
        None
    }
}

/// How many words a window has, and 0 for what isn't a window in words.
fn words_of_window(filter: Filter) -> u32
    ensures { result ≡ spec.words_of_window filter }
{
    match filter {
        Filter::Window(size, Unit::Words) => size,
        _ => 0,
    }
}

/// Whether there is nothing but phrases that are joined by `ftand`, all variants of each of which have as many words.
#[cycle(phrases)]
fn joins_phrases(plan: &OperatorPlan) -> bool
    ensures { result ≡ spec.joins_phrases plan.now }
{
    match plan {
        OperatorPlan::Phrase(phrase) => have_one_length(phrase.variants.as_slice()),
        OperatorPlan::Choice(_sides) => false,
        OperatorPlan::Both(sides) => join_phrases(sides),
        OperatorPlan::MildNot(_sides) => false,
        OperatorPlan::Negated(_plan) => false,
        OperatorPlan::Filtered(_plan) => false,
    }
}

#[cycle(phrases)]
fn join_phrases(sides: &OperatorSides) -> bool
    ensures { result ≡ (spec.joins_phrases sides.now.left && spec.joins_phrases sides.now.right) }
{
    joins_phrases(&sides.left) && joins_phrases(&sides.right)
}

/// Whether the variants have as many words as the first one.
fn have_one_length(variants: &[Items<ItemTest>]) -> bool
    ensures { result ≡ spec.have_one_length variants.now }
{
    match variants {
        [first, ..] => have_length(first.len(), variants),
        [] => true,
    }
}

fn have_length(words: usize, variants: &[Items<ItemTest>]) -> bool
    ensures { result ≡ list_all (λ tests. length tests == words) variants.now }
{
    for tests in variants {
        if tests.len() != words {
            return false;
        }
    }
    true
}
