ghost use Rattle.std.specs.Prelude.{◌≡◌, ◌≤◌, ◌<◌, ◌+◌, ◌-◌, true, [], length, slice_index_or, OnOk};
ghost use Rattle.ft_base.specs.Places.{is_ascending};
ghost use Rattle.index_document.specs.Terms.{are_distinct, leaf_ids};
ghost use Rattle.index_document.specs.Rows.{IsIndexed, entries_of, of_term};
ghost use Rattle.index_document.specs.steps.Groups.{entries_at, entries_without, grouped};

use crate::entry::Entry;
use crate::groups::{Run, run_at, take_term};
use crate::numbers::push_number;
use crate::parts::Parts;
use ft_base::{Memory, Steps};
use std::sync::ledger::Ledger;

/// Takes the rows of the entries out, which are those of the leaf at that place, in the order of the terms.
pub(crate) fn take_rows<L: Ledger>(
    parts: &mut Parts,
    at: usize,
    entries: &Vec<Entry>,
    steps: &mut Steps<L>,
) -> Result<(), Memory>
    requires place { at < length parts.old.leaves.leaves }
    requires distinct { are_distinct (leaf_ids parts.old.leaves.leaves) ≡ true }
    requires indexed { IsIndexed (entries_of parts.old.leaves) parts.old.ids.items parts.old.starts.items parts.old.rows }
    requires rising { is_ascending parts.old.ids.items ≡ true }
    requires grouped { entries.now.items ≡ grouped parts.old.ids.items entries.now.items }
    requires same { (t : _) → of_term t entries.now.items ≡ of_term t (entries_at parts.old.leaves at) }
    ensures leaves { OnOk result (parts.new.leaves ≡ parts.old.leaves) }
    ensures ids { OnOk result (parts.new.ids.items ≡ parts.old.ids.items) }
    ensures indexed { OnOk result (IsIndexed (entries_without parts.old.leaves at) parts.old.ids.items parts.new.starts.items parts.new.rows) }
    ensures counted { OnOk result (steps.new ≡ steps.old + length entries.now.items) }
    ensures at_most { steps.new ≤ steps.old + length entries.now.items }
{
    let total = parts.rows.len();
    let mut starts = Vec::with_capacity(*parts.ids.allocator(), parts.ids.len())?;
    let mut next = 0;
    for number in 0..parts.ids.len() {
        let run = moved_prefix(run_at(parts, total, number), next);
        push_number(&mut starts, run.first)?;
        next = take_term(
            &parts.leaves,
            &mut parts.rows,
            at,
            run,
            entries,
            next,
            steps,
        )?;
    }
    parts.starts = starts;
    Ok(())
}

/// The run after so many fewer rows.
fn moved_prefix(run: Run, by: usize) -> Run
    ensures term { result.term ≡ run.term }
    ensures first { result.first ≡ run.first - by }
    ensures end { result.end ≡ run.end - by }
{
    Run {
        first: run.first.saturating_sub(by),
        end: run.end.saturating_sub(by),
        ..run
    }
}
