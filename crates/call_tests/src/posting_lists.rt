// Posting lists: how many rows stand near each other.
ghost use Rattle.std.specs.Prelude.{◌≡◌, ◌<◌};

use ft_base::{LeafId, Memory, Steps};
use postings::{PostingList, Row};
use std::alloc::Global;
use std::marker::Brand;
use std::process::Abort;
use std::sync::ledger::{Blank, Ledger};
use std::test::Fail;

/// A list of so many rows, all of one leaf.
fn rows_of_a_leaf<L: Ledger>(alloc: Global, count: u32, rows: Blank) -> Result<PostingList, Memory>
    requires name { rows.name ≡ L.name }
    requires parts { rows.parts ≡ L.parts }
    requires whole { 0 < rows.parts }
{
    let mut list = PostingList::empty(alloc);
    let mut rows = Steps::<L>::new(rows);
    for offset in 0..count {
        let row = Row {
            leaf: LeafId(4),
            offset,
        };
        let end = list.len();
        list.put_row(row, end, &mut rows)?;
    }
    Ok(list)
}

/// A place in the list, and how many rows are found from there on.
type NearRow = (usize, usize);

// The rows of a list that fits one block are all near.
const NEAR: [NearRow; 4] = [(0, 3), (1, 2), (2, 1), (3, 0)];

#[test]
fn rows_of_one_block_are_found_together(rt: HostRuntime) -> Result<(), Fail> {
    let list = rows_of_a_leaf::<Brand>(rt.alloc(), 3, Blank::new(1))?;
    assert!(rt; list.len() == 3);
    for row in &NEAR {
        let (at, count) = *row;
        assert!(rt; at <= list.len());
        assert!(rt; list.rows_from(at).len() == count, "{at}");
    }
    Ok(())
}
