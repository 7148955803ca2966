//! The phrases that a phrase of a query stands for.

ghost use Rattle.std.specs.Prelude.{◌≡◌, ◌∷◌, ◌++◌, [], map, option_map, Some, IfOk, OnOk};
ghost use Rattle.std.specs.List.{list_any};
ghost use Rattle.all_matches.specs.Variants as the;
ghost use Rattle.match_options.specs.Items.{item};
ghost use Rattle.plan_compiler.specs.Lexicon.{lexicon};
ghost use Rattle.plan_compiler.specs.Stops.{item_key};
ghost use Rattle.plan_compiler.specs.WordsMeaning as words;
ghost use Rattle.thesaurus_file.specs.Phrases.{in_order};

use crate::lists::Lists;
use crate::reaching::reached_by;
use crate::reading::Reading;
use crate::stops::item_key;
use ft_base::{Items, Line, Memory, ThesaurusChoice};
use match_options::QueryItem;
use std::alloc::Global;
use std::collections::BTreeSet;
use thesaurus_file::Phrase;

/// The phrase itself, and those that its thesauri reach. A phrase without words stands for none.
pub(crate) fn phrases_for(
    alloc: Global,
    reading: &Reading<'_>,
    phrase: &[QueryItem],
) -> Result<Items<Items<QueryItem>>, Memory>
    ensures { IfOk result (λ phrases. map (map item) phrases ≡ words.phrases_for reading.now (map item phrase.now)) }
{
    let mut phrases = Items::new(alloc);
    if phrase.is_empty() {
        return Ok(phrases);
    }
    phrases.push(copy_phrase(alloc, phrase)?)?;
    push_reached(
        alloc,
        reading.lists,
        reading.thesaurus,
        phrase,
        &mut phrases,
    )?;
    Ok(phrases)
}

fn copy_phrase(alloc: Global, phrase: &[QueryItem]) -> Result<Items<QueryItem>, Memory>
    ensures { IfOk result (λ copy. map item copy ≡ map item phrase.now) }
{
    let mut copy = Items::new(alloc);
    for item in phrase {
        copy.push(copy_item(alloc, item)?)?;
    }
    Ok(copy)
}

fn copy_item(alloc: Global, query: &QueryItem) -> Result<QueryItem, Memory>
    ensures { IfOk result (λ copy. item copy ≡ item query.now) }
{
    match query {
        QueryItem::Word(word) => Ok(QueryItem::Word(Line::read(alloc, word.as_str())?)),
        QueryItem::Pattern(pattern) => {
            Ok(QueryItem::Pattern(Line::read(alloc, pattern.as_str())?))
        }
    }
}

/// Puts the phrases that a thesaurus option reaches to the end, each once: none where the phrase holds a pattern.
fn push_reached(
    alloc: Global,
    lists: &Lists,
    thesaurus: Option<&ThesaurusChoice>,
    phrase: &[QueryItem],
    phrases: &mut Items<Items<QueryItem>>,
) -> Result<(), Memory>
    ensures { OnOk result (map (map item) phrases.new ≡ map (map item) phrases.old
        ++ map (map the.word) (in_order (the.reached_keys (lexicon lists.now) (option_map (λ lent. lent.now) thesaurus.entry) (map item phrase.now)))) }
{
    match thesaurus {
        Some(choice) => push_by_choice(alloc, lists, choice, phrase, phrases),
        None => Ok(()),
    }
}

fn push_by_choice(
    alloc: Global,
    lists: &Lists,
    choice: &ThesaurusChoice,
    phrase: &[QueryItem],
    phrases: &mut Items<Items<QueryItem>>,
) -> Result<(), Memory>
    ensures { OnOk result (map (map item) phrases.new ≡ map (map item) phrases.old
        ++ map (map the.word) (in_order (the.reached_keys (lexicon lists.now) (Some choice.now) (map item phrase.now)))) }
{
    match choice {
        ThesaurusChoice::No => Ok(()),
        ThesaurusChoice::Uses(uses) => {
            if holds_pattern(phrase) {
                return Ok(());
            }
            let keys = keys_of(alloc, phrase)?;
            let reached = reached_by(alloc, lists, uses.as_slice(), &keys)?;
            push_phrases(alloc, &reached, phrases)
        }
    }
}

fn holds_pattern(phrase: &[QueryItem]) -> bool
    ensures { result ≡ list_any the.is_pattern (map item phrase.now) }
{
    for item in phrase {
        if is_pattern(item) {
            return true;
        }
    }
    false
}

fn is_pattern(query: &QueryItem) -> bool
    ensures { result ≡ the.is_pattern (item query.now) }
{
    match query {
        QueryItem::Word(_word) => false,
        QueryItem::Pattern(_pattern) => true,
    }
}

/// The keys of the words of a phrase.
fn keys_of(alloc: Global, phrase: &[QueryItem]) -> Result<Phrase, Memory>
    ensures { IfOk result (λ keys. keys ≡ map item_key (map item phrase.now)) }
{
    let mut keys = Phrase::new(alloc);
    for item in phrase {
        keys.push(alloc, item_key(alloc, item)?.as_str())?;
    }
    Ok(keys)
}

/// Puts phrases of keys to the end, their keys as words of the query.
fn push_phrases(
    alloc: Global,
    reached: &BTreeSet<Phrase>,
    phrases: &mut Items<Items<QueryItem>>,
) -> Result<(), Memory>
    ensures { OnOk result (map (map item) phrases.new ≡ map (map item) phrases.old ++ map (map the.word) reached.now.keys) }
{
    for phrase in reached {
        phrases.push(words_of_keys(alloc, phrase)?)?;
    }
    Ok(())
}

fn words_of_keys(alloc: Global, keys: &Phrase) -> Result<Items<QueryItem>, Memory>
    ensures { IfOk result (λ items. map item items ≡ map the.word keys.now) }
{
    let mut items = Items::new(alloc);
    for number in 0..keys.len() {
        let word = Line::read(alloc, keys.get(number))?;
        items.push(QueryItem::Word(word))?;
    }
    Ok(items)
}
