ghost use Rattle.std.specs.Prelude.{◌≡◌, ◌<◌, ◌&&◌, ◌||◌, ◌==◌, [], ℕ, length, slice_index_or, IfOk, OnOk};
ghost use Rattle.index_document.specs.Terms.{has, words_of};
ghost use Rattle.index_groups.specs.Groups.{may_be, same_group};

use crate::groups::Groups;
use ft_base::{DocId, Memory};
use index_document::DocIndex;
use shared_list::SharedList;
use std::alloc::Global;
use std::marker::Model;

/// For how many terms a block holds the groups at most.
const BLOCK_TERMS: usize = 512;

/// Groups by the numbers of the terms.
type GroupList = SharedList<Groups, BLOCK_TERMS>;

/// In which groups of documents each term may stand, by the term's number; a term after the last one may stand in none. A
/// document that goes leaves its group to its terms: another document of the group may have them. A copy shares the blocks of
/// what it was made of; neither sees a change to the other.
#[derive(Drop)]
pub struct TermGroups {
    alloc: Global,
    groups: GroupList,
}

impl Model for TermGroups {
    ghost use Rattle.std.specs.Prelude.{ℕ, List};

    ghost Value = { List ℕ };

    ghost view = { λ inside. inside.groups };
}

impl TermGroups {
    /// The groups where there is no document.
    pub fn empty(alloc: Global) -> TermGroups
        ensures { result ≡ [] }
    {
        TermGroups {
            alloc,
            groups: GroupList::new(alloc),
        }
    }

    /// The same groups once more; none is copied.
    pub fn copy(&self) -> Result<TermGroups, Memory>
        ensures { IfOk result (λ copy. copy ≡ self.now) }
    {
        let groups = self.groups.copy()?;
        Ok(TermGroups {
            alloc: self.alloc,
            groups,
        })
    }

    /// The groups of documents in which the term may stand.
    pub fn groups_of(&self, term: u32) -> Groups
        ensures { result ≡ slice_index_or self.now term 0 }
    {
        groups_at(&self.groups, term)
    }

    /// The groups with one document more: each of its terms may stand in the document's group too.
    pub fn with_document(self, index: &DocIndex) -> Result<TermGroups, Memory>
        ensures { IfOk result (λ groups. (term doc : ℕ) → may_be groups term doc ≡
            (may_be self term doc || (has term (words_of index.now.leaves) && same_group index.now.doc doc))) }
    {
        let alloc = self.alloc;
        let mut groups = self.groups;
        mark_all(&mut groups, index)?;
        Ok(TermGroups { alloc, groups })
    }
}

/// The groups of the term.
fn groups_at(groups: &GroupList, term: u32) -> Groups
    ensures { result ≡ slice_index_or groups.now term 0 }
{
    let at = term as usize;
    if at >= groups.len() {
        return Groups::none();
    }
    *groups.get(at)
}

/// Marks the document's group at each of its terms.
fn mark_all(groups: &mut GroupList, index: &DocIndex) -> Result<(), Memory>
    ensures { OnOk result ((term doc : ℕ) → may_be groups.new term doc ≡
        (may_be groups.old term doc || (has term (words_of index.now.leaves) && same_group index.now.doc doc))) }
{
    let doc = index.doc();
    for number in 0..index.term_count() {
        mark(groups, index.term(number), doc)?;
    }
    Ok(())
}

/// Marks the document's group at the term. Where it is marked there, nothing is written, and so no block copied that others
/// hold.
fn mark(groups: &mut GroupList, term: u32, doc: DocId) -> Result<(), Memory>
    ensures { OnOk result ((other second : ℕ) → may_be groups.new other second ≡
        (may_be groups.old other second || ((term == other) && same_group doc.0 second))) }
{
    let before = groups_at(groups, term);
    if before.may_have(doc) {
        return Ok(());
    }
    let at = term as usize;
    cover(groups, at)?;
    groups.replace(at, before.with_group_of(doc))?;
    Ok(())
}

/// Sees to it that the place is one of the list's, by terms without groups after the last one.
fn cover(groups: &mut GroupList, at: usize) -> Result<(), Memory>
    ensures there { OnOk result (at < length groups.new) }
    ensures same { OnOk result ((term : ℕ) → slice_index_or groups.new term 0 ≡ slice_index_or groups.old term 0) }
{
    while groups.len() <= at {
        groups.push(Groups::none())?;
    }
    Ok(())
}
