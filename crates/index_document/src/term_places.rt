ghost use Rattle.std.specs.Prelude.{◌≡◌, ◌≤◌, ◌<◌, ◌+◌, ◌^◌, ◌↔◌, [], length, slice_index, slice_index_or, IsTrue};
ghost use Rattle.ft_base.specs.Places.{is_ascending};
ghost use Rattle.index_document.specs.Terms.{places_of};
ghost use Rattle.index_document.specs.Rows.{IsRunOf};
ghost use Rattle.shared_list.specs.Blocks.{IsRun};

use crate::groups::Run;
use crate::leaves::Leaves;
use postings::{PostingList, Row};
use std::marker::Model;

/// The places at which a term stands in a document, ascending, counted from 1.
#[derive(Drop)]
pub struct TermPlaces<'v> {
    leaves: &'v Leaves,
    rows: &'v PostingList,
    run: Run,
    // The rows from the first one of the run on that stand in one block with it: mostly all of the run.
    near: &'v [Row],
}

impl<'v> Model for TermPlaces<'v> {
    ghost use Rattle.std.specs.Prelude.{ℕ, List};
    ghost use Rattle.index_document.specs.Terms.{places_of};
    ghost use Rattle.index_document.specs.Rows.{IsRunOf};
    ghost use Rattle.shared_list.specs.Blocks.{IsRun};

    ghost Value = { List ℕ };

    ghost view = { λ inside. places_of inside.run.term inside.leaves.now.leaves };

    ghost invariant = { λ inside. IsRunOf inside.leaves.now inside.rows.now inside.run.term inside.run.first inside.run.end
        × IsRun inside.rows.now inside.run.first inside.near.now };
}

impl<'v> TermPlaces<'v> {
    /// The places of the term of the run, whose rows these are.
    pub(crate) fn new(leaves: &'v Leaves, rows: &'v PostingList, run: Run) -> TermPlaces<'v>
        requires { IsRunOf leaves.now rows.now run.term run.first run.end }
        ensures { result ≡ places_of run.term leaves.now.leaves }
    {
        let near = near_rows(rows, run);
        TermPlaces {
            leaves,
            rows,
            run,
            near,
        }
    }

    /// The same places once more: the rows stay where they are.
    pub fn share(&self) -> TermPlaces<'v>
        ensures { result ≡ self.now }
    {
        TermPlaces {
            leaves: self.leaves,
            rows: self.rows,
            run: self.run,
            near: self.near,
        }
    }

    /// How many places there are.
    pub fn len(&self) -> usize
        ensures len { result ≡ length self.now }
        ensures ascending { IsTrue (is_ascending self.now) }
    {
        self.run.end - self.run.first
    }

    /// Whether there is no place.
    pub fn is_empty(&self) -> bool
        ensures { IsTrue result ↔ (self.now ≡ []) }
    {
        self.run.end == self.run.first
    }

    /// The place of that number, counted from 0.
    pub fn get(&self, number: usize) -> u32
        requires { number < length self.now }
        ensures { result ≡ slice_index self.now number }
    {
        let row = row_at(self.rows, self.near, self.run.first, number);
        self.leaves.place(row)
    }
}

/// The rows from the first one of the run on that stand in one block with it, and none where the run has none.
fn near_rows(rows: &PostingList, run: Run) -> &[Row]
    requires order { run.first ≤ run.end }
    requires within { run.end ≤ length rows.now }
    ensures { IsRun rows.now run.first result.now }
{
    if run.first == run.end {
        return &[];
    }
    rows.rows_from(run.first)
}

/// The row so many places after the first: mostly it is one of those that stand near it.
fn row_at(rows: &PostingList, near: &[Row], first: usize, number: usize) -> Row
    requires near { IsRun rows.now first near.now }
    requires there { first + number < length rows.now }
    requires fits { first + number < 2 ^ 64 }
    ensures { result ≡ slice_index_or rows.now (first + number) result }
{
    if number < near.len() {
        return near[number];
    }
    rows.get(first + number)
}
