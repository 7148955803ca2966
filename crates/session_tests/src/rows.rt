// Rows of tables, and how each is tried.
ghost use Rattle.std.specs.Prelude.{◌<◌, ◌^◌};

use call_tests::texts::{joined, repeated};
use ft_io::{MemoryShelf, MemorySink};
use ft_session::{Status, run};
use plan_runs::{Direct, Judge};
use std::alloc::{AllocError, Global};
use std::fmt::Write;
use std::process::Abort;
use std::test::Fail;

/// A session, what it writes, and how it ends.
pub(crate) type Row = (&'static str, &'static str, Status);

/// A text, a selection, and whether the text satisfies it.
pub(crate) type TruthRow = (&'static str, &'static str, bool);

/// A text with a piece that stands so many times, what is written of it as a session, and how it ends.
pub(crate) type RepeatedRow = (
    &'static str,
    usize,
    &'static str,
    &'static str,
    &'static str,
    Status,
);

/// The number of a call, or a count of bytes, that is never reached.
pub(crate) const NEVER: u64 = u64::MAX;

/// Whether the bytes are these texts, one after the other.
fn are_parts(bytes: &[u8], parts: &[&str]) -> bool {
    let mut rest = bytes;
    for part in parts {
        match rest.strip_prefix(part.as_bytes()) {
            Some(suffix) => rest = suffix,
            None => return false,
        }
    }
    rest.is_empty()
}

/// Whether a run of the session writes these texts and ends so. The read of the given number fails, and the sink takes only so
/// many bytes.
pub(crate) fn is_answered(
    alloc: Global,
    session: &[u8],
    failing_read: u64,
    room: u64,
    output: &[&str],
    status: Status,
) -> Result<bool, Fail> {
    is_answered_by(alloc, session, Direct, failing_read, room, output, status)
}

/// The same where another judge may be asked of selections.
pub(crate) fn is_answered_by<J: Judge + Drop>(
    alloc: Global,
    session: &[u8],
    judge: J,
    failing_read: u64,
    room: u64,
    output: &[&str],
    status: Status,
) -> Result<bool, Fail> {
    let words = [String::from_str(alloc, "s")?];
    let mut shelf = MemoryShelf::new(alloc);
    shelf.add("s", session)?;
    shelf.fail_call(failing_read);
    let mut sink = MemorySink::new(alloc, 65_536)?;
    sink.fail_after(room);
    let ended = run(alloc, words.as_slice(), judge, &mut shelf, &mut sink);
    Ok(are_parts(sink.written(), output) && ended == status)
}

/// Runs a session where nothing fails, and compares what it writes and how it ends.
pub(crate) fn expect_output(
    rt: &impl Abort,
    alloc: Global,
    session: &str,
    output: &[&str],
    status: Status,
) -> Result<(), Fail> {
    let answered = is_answered(alloc, session.as_bytes(), NEVER, NEVER, output, status)?;
    assert!(rt; answered, "{session}");
    Ok(())
}

/// The same for a row.
fn expect(rt: &impl Abort, alloc: Global, row: Row) -> Result<(), Fail> {
    let (session, output, status) = row;
    expect_output(rt, alloc, session, &[output], status)
}

/// Tries rows one after the other.
pub(crate) fn expect_rows(rt: &impl Abort, alloc: Global, rows: &[Row]) -> Result<(), Fail> {
    for row in rows {
        expect(rt, alloc, *row)?;
    }
    Ok(())
}

/// Carries out the commands, loads the text as the element `a` of document `x`, and compares whether it satisfies the selection.
fn expect_truth_after(
    rt: &impl Abort,
    alloc: Global,
    commands: &'static str,
    replies: &'static str,
    row: TruthRow,
) -> Result<(), Fail> {
    let (text, selection, satisfied) = row;
    let session = joined(
        alloc,
        &[
            commands,
            "load x\n<a>",
            text,
            "</a>\n.\nquery collection()/a[. contains text ",
            selection,
            "]\n",
        ],
    )?;
    let found = if satisfied {
        "ok\n= 1\ndoc(\"x\")/a[1]\n"
    } else {
        "ok\n= 0\n"
    };
    expect_output(rt, alloc, session.as_str(), &[replies, found], Status::Done)
}

/// Tries rows one after the other, each after the commands.
pub(crate) fn expect_truths_after(
    rt: &impl Abort,
    alloc: Global,
    commands: &'static str,
    replies: &'static str,
    rows: &[TruthRow],
) -> Result<(), Fail> {
    for row in rows {
        expect_truth_after(rt, alloc, commands, replies, *row)?;
    }
    Ok(())
}

/// The same with no commands before.
pub(crate) fn expect_truths(rt: &impl Abort, alloc: Global, rows: &[TruthRow]) -> Result<(), Fail> {
    expect_truths_after(rt, alloc, "", "", rows)
}

/// Lines that differ in a number, which goes from the first one on: so many of them.
pub(crate) fn numbered_lines(
    alloc: Global,
    prefix: &str,
    first: usize,
    count: usize,
    back: &str,
) -> Result<String, AllocError> {
    let mut lines = String::new(alloc);
    for number in first..first.saturating_add(count) {
        lines.push_str(prefix)?;
        write!(lines, "{number}")?;
        lines.push_str(back)?;
        lines.push('\n')?;
    }
    Ok(lines)
}

/// Runs a session in which a piece stands so many times, and compares what it writes and how it ends.
pub(crate) fn expect_repeated(
    rt: &impl Abort,
    alloc: Global,
    row: RepeatedRow,
) -> Result<(), Fail> {
    let (before, count, piece, suffix, output, status) = row;
    let session = repeated(alloc, before, count, piece, suffix)?;
    let answered = is_answered(alloc, session.as_bytes(), NEVER, NEVER, &[output], status)?;
    assert!(rt; answered, "{before} {count}");
    Ok(())
}
