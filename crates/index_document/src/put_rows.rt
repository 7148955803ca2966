ghost use Rattle.std.specs.Prelude.{◌≡◌, ◌≤◌, ◌<◌, ◌+◌, ◌^◌, true, length, OnOk};
ghost use Rattle.ft_base.specs.Places.{is_ascending};
ghost use Rattle.index_document.specs.Terms.{are_distinct, leaf_ids};
ghost use Rattle.index_document.specs.Rows.{IsIndexed, entries_of};
ghost use Rattle.index_document.specs.steps.Groups.{entries_with, grouped};

use crate::entry::Entry;
use crate::groups::{Run, put_term, run_at};
use crate::numbers::push_number;
use crate::parts::Parts;
use ft_base::{Memory, Steps};
use std::sync::ledger::Ledger;

/// Puts the rows of the entries among those of their terms, as words of leaves that are to come to that place. Each
/// term is there, and the entries are in the order of the terms.
pub(crate) fn put_rows<L: Ledger>(
    parts: &mut Parts,
    at: usize,
    entries: &Vec<Entry>,
    steps: &mut Steps<L>,
) -> Result<(), Memory>
    requires place { at ≤ length parts.old.leaves.leaves }
    requires distinct { are_distinct (leaf_ids parts.old.leaves.leaves) ≡ true }
    requires indexed { IsIndexed (entries_of parts.old.leaves) parts.old.ids.items parts.old.starts.items parts.old.rows }
    requires rising { is_ascending parts.old.ids.items ≡ true }
    requires grouped { entries.now.items ≡ grouped parts.old.ids.items entries.now.items }
    ensures leaves { OnOk result (parts.new.leaves ≡ parts.old.leaves) }
    ensures ids { OnOk result (parts.new.ids.items ≡ parts.old.ids.items) }
    ensures indexed { OnOk result (IsIndexed (entries_with parts.old.leaves at entries.now.items) parts.old.ids.items parts.new.starts.items parts.new.rows) }
    ensures counted { OnOk result (steps.new ≡ steps.old + length entries.now.items) }
    ensures at_most { steps.new ≤ steps.old + length entries.now.items }
{
    let total = parts.rows.len();
    let mut starts = Vec::with_capacity(*parts.ids.allocator(), parts.ids.len())?;
    let mut next = 0;
    for number in 0..parts.ids.len() {
        let _rows = parts.rows.len();
        let run = moved_back(run_at(parts, total, number), next);
        push_number(&mut starts, run.first)?;
        next = put_term(
            &parts.leaves,
            &mut parts.rows,
            at,
            run,
            entries,
            next,
            steps,
        )?;
    }
    parts.starts = starts;
    Ok(())
}

/// The run after so many more rows.
fn moved_back(run: Run, by: usize) -> Run
    requires first { run.first + by < 2 ^ 64 }
    requires end { run.end + by < 2 ^ 64 }
    ensures term { result.term ≡ run.term }
    ensures first { result.first ≡ run.first + by }
    ensures end { result.end ≡ run.end + by }
{
    Run {
        first: run.first + by,
        end: run.end + by,
        ..run
    }
}
