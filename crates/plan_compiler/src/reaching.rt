//! What the choices of a thesaurus option reach from a phrase.

ghost use Rattle.std.specs.Prelude.{◌≡◌, ◌∷◌, ◌++◌, [], Bool, true, fold, flat_map, Some, IfOk, OnOk};
ghost use Rattle.std.specs.BTreeSet.{insert_key};
ghost use Rattle.std.specs.List.{list_any};
ghost use Rattle.std.specs.Option.{option_copied};
ghost use Rattle.ft_base.specs.declared.options.ThesaurusUse as the;
ghost use Rattle.plan_compiler.specs.Lexicon.{lexicon};
ghost use Rattle.plan_compiler.specs.Lexicon as spec;
ghost use Rattle.thesaurus_file.specs.Phrases.{in_order, phrase_cmp};

use crate::lists::Lists;
use ft_base::{Line, Memory, Range, ThesaurusUse};
use std::alloc::Global;
use std::collections::BTreeSet;
use thesaurus_file::{Levels, Phrase};

/// The phrases that one of the choices reaches from the keys of a phrase, in their order, each once.
pub(crate) fn reached_by(
    alloc: Global,
    lists: &Lists,
    uses: &[ThesaurusUse],
    keys: &Phrase,
) -> Result<BTreeSet<Phrase>, Memory>
    ensures { IfOk result (λ reached. reached.keys ≡ in_order (flat_map (λ choice. (lexicon lists.now).reached choice keys.now) uses.now)) }
{
    let mut reached = BTreeSet::new(alloc);
    for number in 0..uses.len() {
        insert_next(
            alloc,
            lists,
            &uses[..number],
            &uses[number],
            keys,
            &mut reached,
        )?;
    }
    Ok(reached)
}

/// Puts what a choice reaches to what those before it reach. The same choice is followed once, however often it is written.
fn insert_next(
    alloc: Global,
    lists: &Lists,
    before: &[ThesaurusUse],
    choice: &ThesaurusUse,
    keys: &Phrase,
    reached: &mut BTreeSet<Phrase>,
) -> Result<(), Memory>
    requires { reached.old.keys ≡ in_order (flat_map (λ choice. (lexicon lists.now).reached choice keys.now) before.now) }
    ensures { OnOk result (reached.new.keys ≡ in_order (flat_map (λ choice. (lexicon lists.now).reached choice keys.now) (before.now ++ choice.now ∷ []))) }
{
    if is_among(choice, before) {
        return Ok(());
    }
    insert_by_use(alloc, lists, choice, keys, reached)
}

/// Whether one of the choices is the same: what holds of the choice then holds of one of them.
fn is_among(choice: &ThesaurusUse, others: &[ThesaurusUse]) -> bool
    ensures { result ≡ true → (holds : the.ThesaurusUse → Bool) → holds choice.now ≡ true → list_any holds others.now ≡ true }
{
    for other in others {
        if is_same(choice, other) {
            return true;
        }
    }
    false
}

fn is_same(choice: &ThesaurusUse, other: &ThesaurusUse) -> bool
    ensures { result ≡ true → choice.now ≡ other.now }
{
    choice.name == other.name
        && choice.levels == other.levels
        && is_same_relationship(&choice.relationship, &other.relationship)
}

fn is_same_relationship(relationship: &Option<Line>, other: &Option<Line>) -> bool
    ensures { result ≡ true → relationship.now ≡ other.now }
{
    match relationship {
        None => other.is_none(),
        Some(name) => match other {
            None => false,
            Some(other) => name == other,
        },
    }
}

/// Puts the phrases that a choice reaches into the set.
fn insert_by_use(
    alloc: Global,
    lists: &Lists,
    choice: &ThesaurusUse,
    keys: &Phrase,
    reached: &mut BTreeSet<Phrase>,
) -> Result<(), Memory>
    ensures { OnOk result (reached.new.keys ≡ fold (insert_key phrase_cmp) reached.old.keys ((lexicon lists.now).reached choice.now keys.now)) }
{
    let Some(thesaurus) = lists.thesaurus(choice.name.as_str()) else {
        return Ok(());
    };
    let levels = levels_of(choice.levels);
    let expanded = thesaurus.expand(alloc, keys, relationship_of(choice), &levels)?;
    insert_phrases(alloc, &expanded[1..], reached)
}

fn insert_phrases(
    alloc: Global,
    phrases: &[Phrase],
    reached: &mut BTreeSet<Phrase>,
) -> Result<(), Memory>
    ensures { OnOk result (reached.new.keys ≡ fold (insert_key phrase_cmp) reached.old.keys phrases.now) }
{
    for phrase in phrases {
        reached.insert(phrase.copy(alloc)?)?;
    }
    Ok(())
}

fn relationship_of<'a>(choice: &'a ThesaurusUse) -> Option<&'a str>
    ensures { option_copied result ≡ choice.now.relationship }
{
    match &choice.relationship {
        Some(relationship) => Some(relationship.as_str()),
        None => None,
    }
}

/// The levels that a range asks for: all but that of the phrase itself, where there is none.
fn levels_of(range: Option<Range>) -> Levels
    ensures { result ≡ spec.levels_of range }
{
    match range {
        None => Levels { from: 1, to: None },
        Some(range) => levels_in(range),
    }
}

fn levels_in(range: Range) -> Levels
    ensures { result ≡ spec.levels_of (Some range) }
{
    match range {
        Range::Exactly(n) => Levels {
            from: n,
            to: Some(n),
        },
        Range::AtLeast(n) => Levels { from: n, to: None },
        Range::AtMost(n) => Levels {
            from: 0,
            to: Some(n),
        },
        Range::FromTo(low, high) => Levels {
            from: low,
            to: Some(high),
        },
    }
}
