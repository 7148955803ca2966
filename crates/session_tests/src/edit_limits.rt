// Limits of edits: what an edit makes stays within the limits of a document, or the edit is refused.
use crate::rows::{RepeatedRow, expect_output, expect_repeated};
use call_tests::texts::{joined, repeated};
use ft_session::Status;
use std::alloc::Global;
use std::process::Abort;
use std::test::Fail;

// The limits hold for what an edit makes, and a refused one leaves all as it was.
const EDITED: [RepeatedRow; 3] = [
    (
        "load x\n<a>",
        999_999,
        "<b/>",
        "</a>\n.\ninsert last collection()/a\n<c/>\n.\nquery collection()//c\n",
        "ok\n! 13 limit: nodes\n= 0\n",
        Status::SomeRefused,
    ),
    (
        "load x\n<a>",
        1_000_000,
        "x ",
        "</a>\n.\ninsert last collection()/a\n<b>y</b>\n.\nquery collection()//b\n",
        "ok\n! 13 limit: tokens\n= 0\n",
        Status::SomeRefused,
    ),
    (
        "load x\n<a><b/>",
        999_999,
        "x ",
        "</a>\n.\ninsert last collection()/a/b\ny\n.\nquery collection()/a[b contains text \"y\"]\n",
        "ok\nok\n= 1\ndoc(\"x\")/a[1]\n",
        Status::Done,
    ),
];

#[test]
fn an_edit_stays_within_the_limits_of_a_document(rt: HostRuntime) -> Result<(), Fail> {
    for row in &EDITED {
        expect_repeated(&rt, rt.alloc(), *row)?;
    }
    Ok(())
}

/// A document: so many levels of elements, and inside the innermost one a piece that stands so many times. What it is edited with, and
/// the limit that is told.
type ExceedingRow = (usize, &'static str, usize, &'static str, &'static str);

// Where an edit would exceed two limits, levels are told before nodes and tokens, and nodes before tokens.
const EXCEEDING: [ExceedingRow; 3] = [
    (
        199,
        "<b/>",
        999_801,
        "insert last collection()//b[1]\n<c/>\n.\n",
        "depth",
    ),
    (
        200,
        "x ",
        1_000_000,
        "insert last collection()//a[not(a)]\n<c>y</c>\n.\n",
        "depth",
    ),
    (
        1,
        "<b/>x x ",
        499_999,
        "insert last collection()/a\ny y y<c/><c/>\n.\n",
        "nodes",
    ),
];

fn expect_exceeded(rt: &impl Abort, alloc: Global, row: &ExceedingRow) -> Result<(), Fail> {
    let (levels, piece, count, edit, limit) = row;
    let opened = repeated(alloc, "load x\n", *levels, "<a>", "")?;
    let filled = repeated(alloc, opened.as_str(), *count, piece, "")?;
    let loaded = repeated(alloc, filled.as_str(), *levels, "</a>", "\n.\n")?;
    let query = "query collection()//c\n";
    let session = joined(alloc, &[loaded.as_str(), edit, query])?;
    let output = ["ok\n! 13 limit: ", limit, "\n= 0\n"];
    expect_output(rt, alloc, session.as_str(), &output, Status::SomeRefused)
}

#[test]
fn the_first_of_two_limits_is_told(rt: HostRuntime) -> Result<(), Fail> {
    for row in &EXCEEDING {
        expect_exceeded(&rt, rt.alloc(), row)?;
    }
    Ok(())
}
