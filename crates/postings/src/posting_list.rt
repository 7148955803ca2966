ghost use Rattle.std.specs.Prelude.{◌≡◌, ◌≤◌, ◌<◌, ◌+◌, [], insert, remove, length, slice_index_or, IfOk, OnErr, OnOk};
ghost use Rattle.postings.specs.Places.{at_place};
ghost use Rattle.shared_list.specs.Blocks.{IsRun};

use crate::{Row, RowCursor};
use ft_base::{Memory, Steps};
use shared_list::SharedList;
use std::alloc::Global;
use std::marker::Model;
use std::sync::ledger::Ledger;

/// How many rows a block holds at most.
const BLOCK_ROWS: usize = 1024;

/// A list of rows, which contracts see as the plain list. A copy shares the blocks of the list that it was made of;
/// neither sees a change to the other.
#[derive(Drop)]
pub struct PostingList {
    rows: SharedList<Row, BLOCK_ROWS>,
}

impl Model for PostingList {
    ghost use Rattle.std.specs.Prelude.{List};
    ghost use Rattle.postings.specs.declared.row.Row.{Row};

    ghost Value = { List Row };

    ghost view = { λ list. list.rows };
}

impl PostingList {
    /// The list without rows.
    pub fn empty(alloc: Global) -> PostingList
        ensures { result ≡ [] }
    {
        PostingList {
            rows: SharedList::new(alloc),
        }
    }

    /// The same list once more; no row is copied.
    pub fn copy(&self) -> Result<PostingList, Memory>
        ensures { IfOk result (λ copy. copy ≡ self.now) }
    {
        let rows = self.rows.copy()?;
        Ok(PostingList { rows })
    }

    /// How many rows there are.
    pub fn len(&self) -> usize
        ensures { result ≡ length self.now }
    {
        self.rows.len()
    }

    /// The row at that place, counted from 0.
    pub fn get(&self, at: usize) -> Row
        requires { at < length self.now }
        ensures { result ≡ slice_index_or self.now at result }
    {
        *self.rows.get(at)
    }

    /// The rows from that place on, as far as they stand in one block: who reads many that stand near each other finds their
    /// block once. No contract says how many they are.
    pub fn rows_from(&self, at: usize) -> &[Row]
        requires { at ≤ length self.now }
        ensures { IsRun self.now at result.now }
    {
        let Some((start, rows)) = self.rows.block(block_of(&self.rows, at)) else {
            return &[];
        };
        if start > at {
            return &[];
        }
        if at - start > rows.len() {
            return &[];
        }
        &rows[at - start..]
    }

    /// Puts a row at that place, counted from 0, before the one that is there. Counts one row, also where
    /// memory runs out and the list stays as it was.
    pub fn put_row<L: Ledger>(
        &mut self,
        row: Row,
        at: usize,
        rows: &mut Steps<L>,
    ) -> Result<(), Memory>
        requires { at ≤ length self.old }
        ensures ok { OnOk result (self.new ≡ insert self.old at row) }
        ensures err { OnErr result (self.new ≡ self.old) }
        ensures counted { rows.new ≡ rows.old + 1 }
    {
        rows.tick();
        self.rows.insert(at, row)
    }

    /// Takes the row at that place, counted from 0, out of the list. Counts one row, also where memory runs out and
    /// the list stays as it was.
    pub fn take_row<L: Ledger>(&mut self, at: usize, rows: &mut Steps<L>) -> Result<Row, Memory>
        requires { at < length self.old }
        ensures row { IfOk result (λ row. row ≡ slice_index_or self.old at row) }
        ensures ok { OnOk result (self.new ≡ remove self.old at) }
        ensures err { OnErr result (self.new ≡ self.old) }
        ensures counted { rows.new ≡ rows.old + 1 }
    {
        rows.tick();
        self.rows.remove(at)
    }

    /// Lets the list go. Counts one for each of its rows, which other copies keep.
    pub fn clear<L: Ledger>(self, rows: &mut Steps<L>)
        ensures { rows.new ≡ rows.old + length self }
    {
        for _ in 0..self.len() {
            rows.tick();
        }
    }

    /// A cursor at the first row.
    pub fn cursor(&self) -> RowCursor<'_>
        ensures { result ≡ at_place self.now 0 }
    {
        RowCursor::new(self)
    }
}

/// The number of the block in which the place is, found by halves.
fn block_of(rows: &SharedList<Row, BLOCK_ROWS>, at: usize) -> usize {
    let mut low = 0;
    let mut high = rows.block_count();
    while high.saturating_sub(low) > 1 {
        let middle = low + (high - low) / 2;
        if starts_after(rows, middle, at) {
            high = middle;
        } else {
            low = middle;
        }
    }
    low
}

/// Whether the block of that number, if there is one, starts after the place.
fn starts_after(rows: &SharedList<Row, BLOCK_ROWS>, number: usize, at: usize) -> bool {
    match rows.block(number) {
        Some((start, _)) => start > at,
        None => true,
    }
}
