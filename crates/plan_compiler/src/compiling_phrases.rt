//! Words compiled to operators of their phrases.

ghost use Rattle.std.specs.Prelude.{◌≡◌, ◌+◌, List, map, IfOk};
ghost use Rattle.std.specs.List.{list_all};
ghost use Rattle.ft_base.specs.Lists.{is_empty};
ghost use Rattle.all_matches.specs.Operators.{operator_by};
ghost use Rattle.all_matches.specs.Ways.{Operator};
ghost use Rattle.match_options.specs.Items.{item};
ghost use Rattle.plan_compiler.specs.ChosenOptions.{options_of};
ghost use Rattle.plan_compiler.specs.CompiledOperators.{PhraseCompilesTo, PhrasesCompileTo, ValueCompilesTo};
ghost use Rattle.plan_compiler.specs.ItemTests.{asks_nothing, passes};
ghost use Rattle.plan_compiler.specs.Operators.{joined_of};
ghost use Rattle.plan_compiler.specs.WordsMeaning as spec;
ghost use Rattle.plan_compiler.specs.declared.operator_plan.OperatorPlan.{Phrase};

use crate::chosen::Chosen;
use crate::compiling_words::phrases_by;
use crate::item_matching::ItemTest;
use crate::joining::{Join, join_operands, no_hit};
use crate::lists::Lists;
use crate::operator_plan::{OperatorPlan, PhraseTests};
use crate::phrase_plan::phrase_tests;
use crate::reading::{Reading, reading_of};
use crate::variants::phrases_for;
use ft_base::{Items, Memory, Mode, Words};
use match_options::QueryItem;
use std::alloc::Global;
use std::mem::drop;

/// The operator of words under the options that hold for them, their phrases being numbered from `next` on.
pub(crate) fn value_operator(
    alloc: Global,
    lists: &Lists,
    chosen: &Chosen<'_>,
    words: &Words,
    next: &mut u32,
) -> Result<OperatorPlan, Memory>
    ensures { IfOk result (λ plan. ValueCompilesTo lists.now (options_of chosen.now) next.old next.new plan words.now) }
{
    let number = *next;
    let reading = reading_of(alloc, lists, chosen)?;
    let phrases = phrases_by(alloc, reading.wildcards, words.mode, &words.values)?;
    let operands = phrase_operators(alloc, &reading, phrases.as_slice(), next)?;
    if all_empty(phrases.as_slice()) {
        drop(operands);
        return Ok(no_hit(alloc, number));
    }
    let plan = join_operands(alloc, join_of(words.mode), operands)?;
    Ok(plan)
}

fn join_of(mode: Mode) -> Join
    ensures { (operands : List Operator) → joined_of result operands ≡ operator_by mode operands }
{
    match mode {
        Mode::Any => Join::Choice,
        Mode::AnyWord => Join::Choice,
        Mode::All => Join::Both,
        Mode::AllWords => Join::Both,
        Mode::Phrase => Join::Choice,
    }
}

/// Whether no phrase has a word.
fn all_empty(phrases: &[Items<QueryItem>]) -> bool
    ensures { result ≡ list_all is_empty phrases.now }
{
    for phrase in phrases {
        if !phrase.is_empty() {
            return false;
        }
    }
    true
}

fn phrase_operators(
    alloc: Global,
    reading: &Reading<'_>,
    phrases: &[Items<QueryItem>],
    next: &mut u32,
) -> Result<Items<OperatorPlan>, Memory>
    ensures { IfOk result (λ plans. PhrasesCompileTo reading.now next.old next.new plans (map (map item) phrases.now)) }
{
    let mut plans = Items::new(alloc);
    for phrase in phrases {
        plans.push(phrase_operator(alloc, reading, phrase.as_slice(), next)?)?;
    }
    Ok(plans)
}

fn phrase_operator(
    alloc: Global,
    reading: &Reading<'_>,
    phrase: &[QueryItem],
    next: &mut u32,
) -> Result<OperatorPlan, Memory>
    ensures { IfOk result (λ plan. PhraseCompilesTo reading.now next.old next.new plan (map item phrase.now)) }
{
    Ok(OperatorPlan::Phrase(numbered_phrase(alloc, reading, phrase, next)?))
}

/// What the words of the phrase have to be, under the next number. Numbers are of 32 bits: where none is left, no memory is found.
pub(crate) fn numbered_phrase(
    alloc: Global,
    reading: &Reading<'_>,
    phrase: &[QueryItem],
    next: &mut u32,
) -> Result<PhraseTests, Memory>
    ensures { IfOk result (λ found. PhraseCompilesTo reading.now next.old next.new (Phrase found) (map item phrase.now)) }
{
    let variants = variant_tests(alloc, reading, phrase)?;
    let number = *next;
    match number.checked_add(1) {
        Some(following) => {
            *next = following;
            Ok(PhraseTests { number, variants })
        }
        None => {
            drop(variants);
            Err(Memory)
        }
    }
}

/// What the words of each phrase that this one stands for have to be.
fn variant_tests(
    alloc: Global,
    reading: &Reading<'_>,
    phrase: &[QueryItem],
) -> Result<Items<Items<ItemTest>>, Memory>
    ensures passes { IfOk result (λ variants. map (map passes) variants
        ≡ map (map (spec.item_test reading.now)) (spec.phrases_for reading.now (map item phrase.now))) }
    ensures asks { IfOk result (λ variants. map (map asks_nothing) variants
        ≡ map (map (spec.reads_any reading.now)) (spec.phrases_for reading.now (map item phrase.now))) }
{
    let phrases = phrases_for(alloc, reading, phrase)?;
    tests_of_phrases(alloc, reading, phrases.as_slice())
}

fn tests_of_phrases(
    alloc: Global,
    reading: &Reading<'_>,
    phrases: &[Items<QueryItem>],
) -> Result<Items<Items<ItemTest>>, Memory>
    ensures passes { IfOk result (λ variants. map (map passes) variants ≡ map (map (spec.item_test reading.now)) (map (map item) phrases.now)) }
    ensures asks { IfOk result (λ variants. map (map asks_nothing) variants ≡ map (map (spec.reads_any reading.now)) (map (map item) phrases.now)) }
{
    let mut variants = Items::new(alloc);
    for phrase in phrases {
        variants.push(phrase_tests(alloc, reading, phrase.as_slice())?)?;
    }
    Ok(variants)
}
