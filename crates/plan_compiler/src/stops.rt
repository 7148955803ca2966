//! Stop words as keys: those of lists, and those that are written as strings.

ghost use Rattle.std.specs.Prelude.{◌≡◌, [], IfOk, OnOk, map, flat_map, fold, Some, option_map, string_bytes};
ghost use Rattle.match_options.specs.Items.{item};
ghost use Rattle.word_lists.specs.KeySets.{with_key};
ghost use Rattle.plan_compiler.specs.Stops as spec;

use crate::lists::Lists;
use ft_base::{Line, Memory, StopChoice, StopSource, StopTerm};
use indexmap::IndexSet;
use match_options::{QueryItem, items_of};
use std::alloc::Global;
use text_forms::key;
use word_lists::KeySet;

/// The keys of a term of stop words, and whether they are taken out.
#[derive(Drop)]
pub(crate) struct StopKeys<'a> {
    pub(crate) except: bool,
    pub(crate) keys: StopSet<'a>,
}

/// A set of stop words, as keys.
#[derive(Drop)]
pub(crate) enum StopSet<'a> {
    /// Those of a stop list, if there is one of the name.
    Listed(Option<&'a KeySet>),
    /// Those of the words of written strings.
    Collected(IndexSet<String>),
}

/// The keys of the terms of a choice.
pub(crate) fn stops_of<'a>(
    alloc: Global,
    lists: &'a Lists,
    choice: Option<&StopChoice>,
) -> Result<Vec<StopKeys<'a>>, Memory>
    ensures { IfOk result (λ stops. map spec.term_of stops.items ≡ spec.stops_of lists.now (option_map (λ lent. lent.now) choice.entry)) }
{
    match choice {
        None => Ok(Vec::new(alloc)),
        Some(choice) => stops_of_choice(alloc, lists, choice),
    }
}

fn stops_of_choice<'a>(
    alloc: Global,
    lists: &'a Lists,
    choice: &StopChoice,
) -> Result<Vec<StopKeys<'a>>, Memory>
    ensures { IfOk result (λ stops. map spec.term_of stops.items ≡ spec.stops_of lists.now (Some choice.now)) }
{
    match choice {
        StopChoice::No => Ok(Vec::new(alloc)),
        StopChoice::Sets(terms) => stops_of_terms(alloc, lists, terms.as_slice()),
    }
}

fn stops_of_terms<'a>(
    alloc: Global,
    lists: &'a Lists,
    terms: &[StopTerm],
) -> Result<Vec<StopKeys<'a>>, Memory>
    ensures { IfOk result (λ stops. map spec.term_of stops.items ≡ map (spec.term_keys lists.now) terms.now) }
{
    let mut stops = Vec::new(alloc);
    for term in terms {
        stops.push(StopKeys {
            except: term.except,
            keys: source_keys(alloc, lists, &term.source)?,
        })?;
    }
    Ok(stops)
}

fn source_keys<'a>(
    alloc: Global,
    lists: &'a Lists,
    source: &StopSource,
) -> Result<StopSet<'a>, Memory>
    ensures { IfOk result (λ keys. spec.keys_of_set keys ≡ spec.source_keys lists.now source.now) }
{
    match source {
        StopSource::At(name) => Ok(StopSet::Listed(lists.stop(name.as_str()))),
        StopSource::Written(texts) => {
            let keys = keys_of_texts(alloc, texts.as_slice())?;
            Ok(StopSet::Collected(keys))
        }
    }
}

fn keys_of_texts(alloc: Global, texts: &[Line]) -> Result<IndexSet<String>, Memory>
    ensures { IfOk result (λ keys. map string_bytes keys.keys ≡ fold with_key [] (flat_map spec.string_keys texts.now)) }
{
    let mut keys = IndexSet::new(alloc);
    for text in texts {
        insert_keys(alloc, &mut keys, text.as_str())?;
    }
    Ok(keys)
}

/// Puts the key of each word of the string into the set.
fn insert_keys(alloc: Global, keys: &mut IndexSet<String>, string: &str) -> Result<(), Memory>
    ensures { OnOk result (map string_bytes keys.new.keys ≡ fold with_key (map string_bytes keys.old.keys) (spec.string_keys string.now)) }
{
    let items = items_of(alloc, false, string)?;
    for item in items.as_slice() {
        let key = item_key(alloc, item)?.into_string();
        keys.insert(key)?;
    }
    Ok(())
}

/// The key of a word; that of a pattern is empty.
pub(crate) fn item_key(alloc: Global, query: &QueryItem) -> Result<Line, Memory>
    ensures { IfOk result (λ key. key ≡ spec.item_key (item query.now)) }
{
    match query {
        QueryItem::Word(word) => key(alloc, word.as_str()),
        QueryItem::Pattern(_pattern) => Ok(Line::from_string(String::new(alloc))),
    }
}

/// Whether a key is a stop word, the terms being taken from left to right.
pub(crate) fn is_stop_key(stops: &[StopKeys<'_>], key: &str) -> bool
    ensures { result ≡ spec.is_stop_key (map spec.term_of stops.now) key.now }
{
    let mut held = false;
    for term in stops {
        held = after_keys(term, key, held);
    }
    held
}

fn after_keys(term: &StopKeys<'_>, key: &str, held: bool) -> bool
    ensures { result ≡ spec.after_keys key.now held (spec.term_of term.now) }
{
    if term.except {
        held && !holds(&term.keys, key)
    } else {
        held || holds(&term.keys, key)
    }
}

fn holds(keys: &StopSet<'_>, key: &str) -> bool
    ensures { result ≡ spec.has_key (spec.keys_of_set keys.now) key.now }
{
    match keys {
        StopSet::Listed(None) => false,
        StopSet::Listed(Some(list)) => list.holds(key),
        StopSet::Collected(keys) => keys.contains(key),
    }
}
