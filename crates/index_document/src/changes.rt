ghost use Rattle.std.specs.Prelude.{◌≡◌, ◌≤◌, ◌<◌, ◌+◌, true, length, OnOk};
ghost use Rattle.std.specs.List.Sorted.{IsNonDecreasingBy};
ghost use Rattle.index_document.specs.Terms.{are_distinct, leaf_ids};
ghost use Rattle.index_document.specs.Rows.{HasTerms, IsIndexed, IsSound};
ghost use Rattle.index_document.specs.steps.Groups.{IsSortedFrom, entries_at, entries_with, entries_without, term_of};

use crate::entry::Entry;
use crate::parts::Parts;
use crate::put_rows::put_rows;
use crate::take_rows::take_rows;
use crate::terms::widen;
use ft_base::{Memory, Steps};
use std::sync::ledger::Ledger;

/// Puts the rows of entries, in the order of their terms, among the others, as words of leaves that are to come to that
/// place.
pub(crate) fn put_entries<L: Ledger>(
    parts: &mut Parts,
    at: usize,
    entries: &Vec<Entry>,
    steps: &mut Steps<L>,
) -> Result<(), Memory>
    requires place { at ≤ length parts.old.leaves.leaves }
    requires distinct { are_distinct (leaf_ids parts.old.leaves.leaves) ≡ true }
    requires sound { IsSound parts.old }
    requires order { IsNonDecreasingBy term_of entries.now.items }
    ensures leaves { OnOk result (parts.new.leaves ≡ parts.old.leaves) }
    ensures indexed { OnOk result (IsIndexed (entries_with parts.old.leaves at entries.now.items) parts.new.ids.items parts.new.starts.items parts.new.rows) }
    ensures terms { OnOk result (HasTerms (entries_with parts.old.leaves at entries.now.items) parts.new.ids.items) }
    ensures counted { OnOk result (steps.new ≡ steps.old + length entries.now.items) }
    ensures at_most { steps.new ≤ steps.old + length entries.now.items }
{
    widen(parts, entries)?;
    put_rows(parts, at, entries, steps)
}

/// Takes the rows of the entries out, which are those of the leaf at that place, in the order of the terms.
pub(crate) fn take_entries<L: Ledger>(
    parts: &mut Parts,
    at: usize,
    entries: &Vec<Entry>,
    steps: &mut Steps<L>,
) -> Result<(), Memory>
    requires place { at < length parts.old.leaves.leaves }
    requires distinct { are_distinct (leaf_ids parts.old.leaves.leaves) ≡ true }
    requires sound { IsSound parts.old }
    requires sorted { IsSortedFrom (entries_at parts.old.leaves at) entries.now.items }
    ensures leaves { OnOk result (parts.new.leaves ≡ parts.old.leaves) }
    ensures ids { OnOk result (parts.new.ids.items ≡ parts.old.ids.items) }
    ensures indexed { OnOk result (IsIndexed (entries_without parts.old.leaves at) parts.new.ids.items parts.new.starts.items parts.new.rows) }
    ensures counted { OnOk result (steps.new ≡ steps.old + length entries.now.items) }
    ensures at_most { steps.new ≤ steps.old + length entries.now.items }
{
    take_rows(parts, at, entries, steps)
}
