//! How the words of a selection are read under the options that hold for them.

ghost use Rattle.std.specs.Prelude.{◌≡◌, false, map, IfOk};
ghost use Rattle.match_options.specs.Items.{item};
ghost use Rattle.all_matches.specs.Variants as the;
ghost use Rattle.text_forms.specs.Forms.{key_of};
ghost use Rattle.plan_compiler.specs.ChosenOptions.{options_of};
ghost use Rattle.plan_compiler.specs.ItemTests.{asks_nothing, passes};
ghost use Rattle.plan_compiler.specs.ReadingMeaning.{Reads};
ghost use Rattle.plan_compiler.specs.Stops as stop;
ghost use Rattle.plan_compiler.specs.WordsMeaning as spec;

use crate::chosen::Chosen;
use crate::item_matching::ItemTest;
use crate::lists::Lists;
use crate::stops::{StopKeys, is_stop_key, stops_of};
use ft_base::{Case, Line, Memory, ThesaurusChoice};
use match_options::{FormChoice, QueryItem, WordTest};
use std::alloc::Global;
use text_forms::key;

/// What the options of words say, and the lists that they name.
#[derive(Drop)]
pub(crate) struct Reading<'a> {
    pub(crate) choice: FormChoice,
    pub(crate) wildcards: bool,
    pub(crate) stemming: bool,
    pub(crate) thesaurus: Option<&'a ThesaurusChoice>,
    pub(crate) stops: Vec<StopKeys<'a>>,
    pub(crate) lists: &'a Lists,
}

pub(crate) fn reading_of<'a>(
    alloc: Global,
    lists: &'a Lists,
    chosen: &Chosen<'a>,
) -> Result<Reading<'a>, Memory>
    ensures { IfOk result (λ reading. Reads reading lists.now (options_of chosen.now)) }
{
    let stops = stops_of(alloc, lists, chosen.stop_words)?;
    Ok(Reading {
        choice: FormChoice {
            case: chosen.case.unwrap_or(Case::Insensitive),
            diacritics_sensitive: chosen.diacritics_sensitive.unwrap_or(false),
        },
        wildcards: chosen.wildcards.unwrap_or(false),
        stemming: chosen.stemming.unwrap_or(false),
        thesaurus: chosen.thesaurus,
        stops,
        lists,
    })
}

/// What a word of a text has to be for an item of the query: anything where the item is a stop word.
#[tactic(auto, unfolding(crate::specs::ItemTests::passes, crate::specs::WordsMeaning::bare_test))]
pub(crate) fn item_test(
    alloc: Global,
    reading: &Reading<'_>,
    query: &QueryItem,
) -> Result<ItemTest, Memory>
    ensures passes { IfOk result (λ test. passes test ≡ spec.item_test reading.now (item query.now)) }
    ensures asks { IfOk result (λ test. asks_nothing test ≡ spec.reads_any reading.now (item query.now)) }
{
    match query {
        QueryItem::Pattern(_pattern) => {
            let test = WordTest::of(alloc, query, reading.choice)?;
            Ok(ItemTest::ByForms(test))
        }
        QueryItem::Word(word) => word_test(alloc, reading, query, word),
    }
}

#[tactic(auto, unfolding(crate::specs::ItemTests::passes, crate::specs::WordsMeaning::bare_test, match_options::specs::WordTests::passes))]
fn word_test(
    alloc: Global,
    reading: &Reading<'_>,
    query: &QueryItem,
    word: &Line,
) -> Result<ItemTest, Memory>
    requires { item query.now ≡ the.word word.now }
    ensures passes { IfOk result (λ test. passes test ≡ spec.item_test reading.now (the.word word.now)) }
    ensures asks { IfOk result (λ test. asks_nothing test ≡ spec.reads_any reading.now (the.word word.now)) }
{
    if is_stop_word(alloc, reading, word)? {
        return Ok(ItemTest::Any);
    }
    if reading.stemming {
        return stem_test(alloc, reading, word);
    }
    let test = WordTest::of(alloc, query, reading.choice)?;
    Ok(ItemTest::ByForms(test))
}

#[tactic(auto, unfolding(crate::specs::ItemTests::passes))]
fn stem_test(alloc: Global, reading: &Reading<'_>, word: &Line) -> Result<ItemTest, Memory>
    ensures passes { IfOk result (λ test. passes test ≡ spec.stem_test reading.now.lists.now.stems reading.now.choice.case word.now) }
    ensures asks { IfOk result (λ test. asks_nothing test ≡ false) }
{
    let key = key(alloc, word.as_str())?;
    let stem = Line::read(alloc, reading.lists.stem(key.as_str()))?;
    Ok(ItemTest::ByStem(stem, reading.choice.case))
}

fn is_stop_word(alloc: Global, reading: &Reading<'_>, word: &Line) -> Result<bool, Memory>
    ensures { IfOk result (λ found. found ≡ stop.is_stop_key (map stop.term_of reading.now.stops.items) (key_of word.now)) }
{
    if reading.stops.is_empty() {
        return Ok(false);
    }
    let key = key(alloc, word.as_str())?;
    Ok(is_stop_key(reading.stops.as_slice(), key.as_str()))
}
