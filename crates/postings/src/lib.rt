//! Posting lists: where a word stands in a document. A list's rows are in blocks that its copies share, and
//! each row that comes or goes is counted.
//!
//! `row` is the plain type, `posting_list` the list, `row_cursor` a place in one.
#![tactic(auto)]

mod posting_list;
mod row;
mod row_cursor;

pub use posting_list::PostingList;
pub use row::Row;
pub use row_cursor::RowCursor;
