//! One document of a version goes, comes or is exchanged for another, and the dictionary, the counts and the groups follow.
ghost use Rattle.std.specs.Prelude.{◌≡◌, ◌<◌, ◌+◌, ◌-◌, ◌&&◌, ◌==◌, ℕ, nat_lt, not, true, IfOk, IfSome, OnOk};
ghost use Rattle.index_document.specs.Terms.{are_distinct, has};
ghost use Rattle.index_meaning.specs.Dictionaries.{ids};
ghost use Rattle.index_counts.specs.Counts.{count_of};
ghost use Rattle.std.specs.List.{All};
ghost use Rattle.index_versions.specs.steps.Held.{Held, documents_with, listed, listed_ids};
ghost use Rattle.index_versions.specs.steps.Exchange.{exchanged};
ghost use Rattle.index_versions.specs.steps.Sound.{IsGrouped, IsSound, IsSoundFor};

use crate::exchange::exchange;
use crate::held::HeldDocument;
use crate::parts::Parts;
use ft_base::{DocId, Line, Memory};
use index_counts::DocumentCounts;
use index_groups::TermGroups;
use std::alloc::Global;
use std::mem;
use term_dict::TermDict;

/// Puts a document, whose words the dictionary has, in the place of the one with that number, or takes that one out. A
/// term that no document has any more leaves the dictionary.
pub(crate) fn change(
    alloc: Global,
    parts: &mut Parts,
    doc: DocId,
    next: Option<HeldDocument>,
) -> Result<(), Memory>
    requires number { IfSome next (λ held. held.index.doc ≡ doc.0) }
    requires sound { IsSoundFor (listed_ids next) parts.old }
    ensures sound { OnOk result (IsSound parts.new) }
    ensures documents { OnOk result (parts.new.documents ≡ exchanged doc.0 (listed next) parts.old.documents) }
    ensures given { OnOk result (parts.new.dictionary.given ≡ parts.old.dictionary.given) }
{
    raise(alloc, &mut parts.counts, &next)?;
    mark(alloc, &mut parts.groups, &next)?;
    let old = exchange(&mut parts.documents, doc, next)?;
    let fallen = lower(alloc, &mut parts.counts, old)?;
    drop_terms(alloc, &mut parts.dictionary, &fallen)?;
    Ok(())
}

/// Counts the ids of a document that comes.
fn raise(
    alloc: Global,
    counts: &mut DocumentCounts,
    next: &Option<HeldDocument>,
) -> Result<(), Memory>
    ensures { OnOk result ((id : ℕ) → count_of counts.new id ≡ count_of counts.old id + documents_with id (listed next.now)) }
{
    match next {
        Some(held) => {
            let before = mem::replace(counts, DocumentCounts::empty(alloc));
            *counts = before.shifted(held.index())?;
            Ok(())
        }
        None => Ok(()),
    }
}

/// Marks the group of a document that comes at its ids. Those of the other documents stay marked.
fn mark(alloc: Global, groups: &mut TermGroups, next: &Option<HeldDocument>) -> Result<(), Memory>
    ensures others { OnOk result ((held : Held) → IsGrouped groups.old held → IsGrouped groups.new held) }
    ensures next { OnOk result (All (IsGrouped groups.new) (listed next.now)) }
{
    match next {
        Some(held) => {
            let before = mem::replace(groups, TermGroups::empty(alloc));
            *groups = before.with_document(held.index())?;
            Ok(())
        }
        None => Ok(()),
    }
}

/// Counts the ids of a document that went no longer, and hands out those of its ids that no document has any more, each
/// once.
fn lower(
    alloc: Global,
    counts: &mut DocumentCounts,
    old: Option<HeldDocument>,
) -> Result<Vec<u32>, Memory>
    requires { (id : ℕ) → has id (listed_ids old) ≡ true → 0 < count_of counts.old id }
    ensures counts { OnOk result ((id : ℕ) → count_of counts.new id ≡ count_of counts.old id - documents_with id (listed old)) }
    ensures distinct { IfOk result (λ fallen. are_distinct fallen.items ≡ true) }
    ensures fallen { IfOk result (λ fallen. (id : ℕ) → has id fallen.items ≡ (has id (listed_ids old) && not (nat_lt 0 (count_of counts.new id)))) }
{
    match old {
        Some(held) => {
            let before = mem::replace(counts, DocumentCounts::empty(alloc));
            let (after, fallen) = before.lowered(held.index())?;
            *counts = after;
            Ok(fallen)
        }
        None => Ok(Vec::new(alloc)),
    }
}

/// Takes the terms of these ids, which are all there, out of the dictionary.
fn drop_terms(alloc: Global, dictionary: &mut TermDict, fallen: &Vec<u32>) -> Result<(), Memory>
    requires distinct { are_distinct fallen.now.items ≡ true }
    requires there { (id : ℕ) → has id fallen.now.items ≡ true → has id (ids dictionary.old.terms) ≡ true }
    ensures left { OnOk result ((id : ℕ) → has id (ids dictionary.new.terms) ≡ (not (has id fallen.now.items) && has id (ids dictionary.old.terms))) }
    ensures given { OnOk result (dictionary.new.given ≡ dictionary.old.given) }
{
    for id in fallen {
        drop_term(alloc, dictionary, *id)?;
    }
    Ok(())
}

/// Takes the term of that id, which is there, out of the dictionary.
fn drop_term(alloc: Global, dictionary: &mut TermDict, id: u32) -> Result<(), Memory>
    requires { has id (ids dictionary.old.terms) ≡ true }
    ensures left { OnOk result ((other : ℕ) → has other (ids dictionary.new.terms) ≡ (not (id == other) && has other (ids dictionary.old.terms))) }
    ensures given { OnOk result (dictionary.new.given ≡ dictionary.old.given) }
{
    let _terms = dictionary.len();
    let term = dictionary.entry(id);
    let key = Line::read(alloc, term.key)?;
    let word = Line::read(alloc, term.word)?;
    dictionary.take(key.as_str(), word.as_str())?;
    Ok(())
}
