ghost use Rattle.std.specs.Prelude.{◌≡◌, ◌≤◌, length, slice_get};
ghost use Rattle.postings.specs.Places.{at_place};

use crate::{PostingList, Row};
use std::marker::Model;

/// A place in a posting list: at one of its rows, or at its end.
#[derive(Drop)]
pub struct RowCursor<'v> {
    list: &'v PostingList,
    at: usize,
}

impl<'v> Model for RowCursor<'v> {
    ghost use Rattle.std.specs.Prelude.{◌≤◌, length};
    ghost use Rattle.postings.specs.Places.{RowPlace, at_place};

    ghost Value = { RowPlace };

    ghost view = { λ cursor. at_place cursor.list.now cursor.at };

    ghost invariant = { λ cursor. cursor.at ≤ length cursor.list.now };
}

impl<'v> RowCursor<'v> {
    /// A cursor at the first row of the list.
    pub(crate) fn new(list: &'v PostingList) -> RowCursor<'v>
        ensures { result ≡ at_place list.now 0 }
    {
        RowCursor { list, at: 0 }
    }

    /// The row at the place, and `None` exactly at the end of the list.
    pub fn here(&self) -> Option<Row>
        ensures { result ≡ slice_get self.now.rows self.now.place }
    {
        if self.at == self.list.len() {
            return None;
        }
        Some(self.list.get(self.at))
    }

    /// Goes to that place of the list, counted from 0.
    pub fn go(&mut self, at: usize)
        requires { at ≤ length self.old.rows }
        ensures { self.new ≡ at_place self.old.rows at }
    {
        self.at = at;
    }
}
