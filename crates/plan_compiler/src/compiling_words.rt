//! The words of a selection, compiled.

ghost use Rattle.std.specs.Prelude.{◌≡◌, ◌∷◌, ◌++◌, [], map, flat_map, IfOk, OnOk};
ghost use Rattle.all_matches.specs.Meaning.{phrases_by, singly};
ghost use Rattle.match_options.specs.Items.{item};
ghost use Rattle.match_options.specs.Items as items;
ghost use Rattle.plan_compiler.specs.ChosenOptions.{options_of};
ghost use Rattle.plan_compiler.specs.CompiledWords.{IsCompiled};
ghost use Rattle.plan_compiler.specs.WordsMeaning as spec;

use crate::chosen::Chosen;
use crate::lists::Lists;
use crate::phrase_plan::{PhrasePlan, phrase_plan};
use crate::reading::{Reading, reading_of};
use crate::words_plan::WordsPlan;
use ft_base::{Items, Lines, Memory, Mode, Words};
use match_options::{QueryItem, items_of};
use std::alloc::Global;

/// The compiled form of words, under the options that hold for them.
pub(crate) fn compile_words(
    alloc: Global,
    lists: &Lists,
    words: &Words,
    chosen: &Chosen<'_>,
) -> Result<WordsPlan, Memory>
    ensures { IfOk result (λ plan. IsCompiled plan lists.now (options_of chosen.now) words.now) }
{
    let reading = reading_of(alloc, lists, chosen)?;
    let phrases = plans_by(alloc, &reading, words.mode, &words.values)?;
    let all = asks_all(words.mode) && !phrases.is_empty();
    Ok(WordsPlan {
        phrases,
        all,
        times: words.times,
    })
}

fn asks_all(mode: Mode) -> bool
    ensures { result ≡ spec.asks_all mode }
{
    match mode {
        Mode::All => true,
        Mode::AllWords => true,
        _ => false,
    }
}

/// The plans of the phrases that the mode makes of the strings.
fn plans_by(
    alloc: Global,
    reading: &Reading<'_>,
    mode: Mode,
    strings: &Lines,
) -> Result<Items<PhrasePlan>, Memory>
    ensures { IfOk result (λ plans. map spec.plan_tests plans
        ≡ map (spec.grouped_tests reading.now) (phrases_by mode (map (items.items_of reading.now.wildcards) strings.now))) }
{
    let phrases = phrases_by(alloc, reading.wildcards, mode, strings)?;
    let plans = phrase_plans(alloc, reading, phrases.as_slice())?;
    Ok(plans)
}

fn phrase_plans(
    alloc: Global,
    reading: &Reading<'_>,
    phrases: &[Items<QueryItem>],
) -> Result<Items<PhrasePlan>, Memory>
    ensures { IfOk result (λ plans. map spec.plan_tests plans ≡ map (spec.grouped_tests reading.now) (map (map item) phrases.now)) }
{
    let mut plans = Items::new(alloc);
    for phrase in phrases {
        plans.push(phrase_plan(alloc, reading, phrase.as_slice())?)?;
    }
    Ok(plans)
}

/// The phrases that the mode makes of the strings.
pub(crate) fn phrases_by(
    alloc: Global,
    wildcards: bool,
    mode: Mode,
    strings: &Lines,
) -> Result<Items<Items<QueryItem>>, Memory>
    ensures { IfOk result (λ phrases. map (map item) phrases ≡ phrases_by mode (map (items.items_of wildcards) strings.now)) }
{
    match mode {
        Mode::Any => each_string(alloc, wildcards, strings),
        Mode::All => each_string(alloc, wildcards, strings),
        Mode::AnyWord => each_word(alloc, wildcards, strings),
        Mode::AllWords => each_word(alloc, wildcards, strings),
        Mode::Phrase => one_phrase(alloc, wildcards, strings),
    }
}

fn each_string(
    alloc: Global,
    wildcards: bool,
    strings: &Lines,
) -> Result<Items<Items<QueryItem>>, Memory>
    ensures { IfOk result (λ phrases. map (map item) phrases ≡ map (items.items_of wildcards) strings.now) }
{
    let mut phrases = Items::new(alloc);
    for string in strings.as_slice() {
        phrases.push(items_of(alloc, wildcards, string.as_str())?)?;
    }
    Ok(phrases)
}

fn one_phrase(
    alloc: Global,
    wildcards: bool,
    strings: &Lines,
) -> Result<Items<Items<QueryItem>>, Memory>
    ensures { IfOk result (λ phrases. map (map item) phrases ≡ flat_map (λ string. string) (map (items.items_of wildcards) strings.now) ∷ []) }
{
    let phrase = all_items(alloc, wildcards, strings)?;
    let mut phrases = Items::new(alloc);
    phrases.push(phrase)?;
    Ok(phrases)
}

fn each_word(
    alloc: Global,
    wildcards: bool,
    strings: &Lines,
) -> Result<Items<Items<QueryItem>>, Memory>
    ensures { IfOk result (λ phrases. map (map item) phrases ≡ singly (flat_map (λ string. string) (map (items.items_of wildcards) strings.now))) }
{
    let mut phrases = Items::new(alloc);
    for item in all_items(alloc, wildcards, strings)?.into_vec() {
        let mut phrase = Items::new(alloc);
        phrase.push(item)?;
        phrases.push(phrase)?;
    }
    Ok(phrases)
}

/// The words and patterns of all strings.
fn all_items(alloc: Global, wildcards: bool, strings: &Lines) -> Result<Items<QueryItem>, Memory>
    ensures { IfOk result (λ all. map item all ≡ flat_map (λ string. string) (map (items.items_of wildcards) strings.now)) }
{
    let mut all = Items::new(alloc);
    for string in strings.as_slice() {
        push_items(&mut all, items_of(alloc, wildcards, string.as_str())?)?;
    }
    Ok(all)
}

fn push_items(all: &mut Items<QueryItem>, items: Items<QueryItem>) -> Result<(), Memory>
    ensures { OnOk result (map item all.new ≡ map item all.old ++ map item items) }
{
    for item in items.into_vec() {
        all.push(item)?;
    }
    Ok(())
}
