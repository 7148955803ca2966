// Calls that name no session, files that can't be read, sinks that fill, and what is said of each status.
use crate::rows::{NEVER, is_answered};
use ft_io::{MemoryShelf, MemorySink};
use ft_session::{Status, exit_of, line_of, run};
use plan_runs::Direct;
use std::alloc::{AllocError, Global};
use std::process::Abort;
use std::test::Fail;

const HELLO: &str =
    "load one\n<a>Hello world</a>\n.\nquery collection()//a[. contains text \"hello\"]\n";

const HELLO_OUTPUT: &str = "ok\n= 1\ndoc(\"one\")/a[1]\n";

/// A session, the number of the read that fails, how many bytes the sink takes, what is written, and how it ends.
type FailureRow = (&'static str, u64, u64, &'static str, Status);

const FAILURES: [FailureRow; 9] = [
    // commands that were whole before a read fault are answered
    (HELLO, 2, NEVER, HELLO_OUTPUT, Status::ReadFault),
    (
        "drop y\ndrop z",
        2,
        NEVER,
        "! 4 no such name: y\n",
        Status::ReadFault,
    ),
    (HELLO, 1, NEVER, "", Status::ReadFault),
    // what was written before a write fault stays
    (HELLO, NEVER, 7, "ok\n= 1\n", Status::WriteFault),
    (HELLO, NEVER, 0, "", Status::WriteFault),
    (HELLO, NEVER, 3, "ok\n", Status::WriteFault),
    (
        HELLO,
        NEVER,
        22,
        "ok\n= 1\ndoc(\"one\")/a[1]",
        Status::WriteFault,
    ),
    (HELLO, NEVER, 23, HELLO_OUTPUT, Status::Done),
    // nothing is written of a session without commands
    ("", NEVER, 0, "", Status::Done),
];

fn expect_failure(rt: &impl Abort, alloc: Global, row: FailureRow) -> Result<(), Fail> {
    let (session, failing_read, room, output, status) = row;
    let answered = is_answered(
        alloc,
        session.as_bytes(),
        failing_read,
        room,
        &[output],
        status,
    )?;
    assert!(rt; answered, "{output}");
    Ok(())
}

#[test]
fn what_was_answered_before_a_fault_stays(rt: HostRuntime) -> Result<(), Fail> {
    for row in &FAILURES {
        expect_failure(&rt, rt.alloc(), *row)?;
    }
    Ok(())
}

/// The words of a call where no file is there, and how it ends.
type CallRow = (&'static [&'static str], Status);

const CALLS: [CallRow; 10] = [
    (&[], Status::Usage),
    (&[""], Status::Usage),
    (&["-x"], Status::Usage),
    (&["--make"], Status::Usage),
    (&["--make=0"], Status::Usage),
    (&["--make", "0"], Status::Usage),
    (&["--make", "01"], Status::Usage),
    (&["--make", "4097"], Status::Usage),
    (&["a", "b"], Status::Usage),
    (&["s"], Status::ReadFault),
];

fn owned_words(alloc: Global, texts: &[&str]) -> Result<Vec<String>, AllocError> {
    let mut words = Vec::new(alloc);
    for text in texts {
        words.push(String::from_str(alloc, text)?)?;
    }
    Ok(words)
}

/// Compares how a call ends, and that it writes nothing.
fn expect_call(rt: &impl Abort, alloc: Global, row: CallRow) -> Result<(), Fail> {
    let (texts, status) = row;
    let words = owned_words(alloc, texts)?;
    let mut shelf = MemoryShelf::new(alloc);
    let mut sink = MemorySink::new(alloc, 16)?;
    let ended = run(alloc, words.as_slice(), Direct, &mut shelf, &mut sink);
    assert!(rt; ended == status && sink.written().is_empty());
    Ok(())
}

#[test]
fn calls_that_name_no_file_are_refused(rt: HostRuntime) -> Result<(), Fail> {
    for row in &CALLS {
        expect_call(&rt, rt.alloc(), *row)?;
    }
    Ok(())
}

/// A status, its exit number, and the line that is said of it.
type StatusRow = (Status, u8, &'static str);

const STATUSES: [StatusRow; 7] = [
    (Status::Done, 0, ""),
    (Status::SomeRefused, 1, ""),
    (Status::Usage, 2, "usage: ftq SESSION | ftq --make N"),
    (Status::ReadFault, 3, "ftq: read fault"),
    (Status::WriteFault, 4, "ftq: write fault"),
    (Status::Memory, 5, "ftq: out of memory"),
    (Status::TooLong, 6, "ftq: session too long"),
];

#[test]
fn each_status_has_its_number_and_line(rt: HostRuntime) -> Result<(), Fail> {
    for row in &STATUSES {
        let (status, number, line) = *row;
        assert!(rt; exit_of(&status) == number, "{number}");
        assert!(rt; line_of(&status) == line, "{number}");
    }
    Ok(())
}
