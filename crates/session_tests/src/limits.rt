// Limits: how much a session, a document, a selection and a collection may have.
use crate::rows::{NEVER, RepeatedRow, expect_output, expect_repeated, is_answered};
use call_tests::texts::repeated;
use ft_session::Status;
use std::alloc::{AllocError, Global};
use std::process::Abort;
use std::test::Fail;

/// What stands before and after number signs, so that there are that many bytes; what is written, and how it ends.
type LengthRow = (&'static str, &'static str, usize, &'static str, Status);

const HELLO: &str =
    "load one\n<a>Hello world</a>\n.\nquery collection()//a[. contains text \"hello\"]\n";

const LENGTHS: [LengthRow; 2] = [
    ("", "", 67_108_864, "", Status::Done),
    ("", "", 67_108_865, "", Status::TooLong),
];

// A session that is too long is answered so far. A command that ends with the last byte that is read is whole, one that nothing ends
// isn't.
const TOO_LONG: [LengthRow; 3] = [
    (
        HELLO,
        "",
        67_108_865,
        "ok\n= 1\ndoc(\"one\")/a[1]\n",
        Status::TooLong,
    ),
    (
        "drop x\n",
        "\ndrop y\n",
        67_108_865,
        "! 4 no such name: x\n! 4 no such name: y\n",
        Status::TooLong,
    ),
    (
        "drop x\n",
        "\ndrop yy",
        67_108_866,
        "! 4 no such name: x\n",
        Status::TooLong,
    ),
];

const SIGNS: &str = "################################################################";

/// The prefix, number signs, which are a comment of one line, and the back: so many bytes, or no signs where these are too few.
fn filled(alloc: Global, prefix: &str, back: &str, count: usize) -> Result<String, AllocError> {
    let mut session = String::from_str(alloc, prefix)?;
    let signs = count
        .saturating_sub(prefix.len())
        .saturating_sub(back.len());
    for _ in 0..signs / 64 {
        session.push_str(SIGNS)?;
    }
    for _ in 0..signs % 64 {
        session.push('#')?;
    }
    session.push_str(back)?;
    Ok(session)
}

fn expect_length(rt: &impl Abort, alloc: Global, row: LengthRow) -> Result<(), Fail> {
    let (prefix, back, count, output, status) = row;
    let session = filled(alloc, prefix, back, count)?;
    let answered = is_answered(alloc, session.as_bytes(), NEVER, NEVER, &[output], status)?;
    assert!(rt; answered, "{prefix} {count}");
    Ok(())
}

#[test]
fn a_session_has_67108864_bytes_at_most(rt: HostRuntime) -> Result<(), Fail> {
    for row in &LENGTHS {
        expect_length(&rt, rt.alloc(), *row)?;
    }
    Ok(())
}

#[test]
fn a_session_that_is_too_long_is_answered_so_far(rt: HostRuntime) -> Result<(), Fail> {
    for row in &TOO_LONG {
        expect_length(&rt, rt.alloc(), *row)?;
    }
    Ok(())
}

// A document has 1,000,000 tokens at most.
const TOKENS: [RepeatedRow; 2] = [
    (
        "load x\n<a>",
        1_000_001,
        "x ",
        "</a>\n.\n",
        "! 6 document: tokens\n",
        Status::SomeRefused,
    ),
    (
        "load x\n<a>",
        1_000_000,
        "x ",
        "</a>\n.\nquery collection()//a[. contains text \"x\"]\n",
        "ok\n= 1\ndoc(\"x\")/a[1]\n",
        Status::Done,
    ),
];

// A document has 1,000,000 nodes at most.
const NODES: [RepeatedRow; 2] = [
    (
        "load x\n<a>",
        1_000_000,
        "<b/>",
        "</a>\n.\n",
        "! 6 document: nodes at 3999999\n",
        Status::SomeRefused,
    ),
    (
        "load x\n<a>",
        999_999,
        "<b/>",
        "</a>\n.\n",
        "ok\n",
        Status::Done,
    ),
];

const REPEATED: [RepeatedRow; 11] = [
    // a command line has 65,536 bytes at most, and a comment any number
    (
        "print ",
        65_530,
        "a",
        "\r\n",
        "! 7 query: syntax at 0\n",
        Status::SomeRefused,
    ),
    (
        "print ",
        65_531,
        "a",
        "\r\n",
        "! 1 bad command at line 1\n",
        Status::SomeRefused,
    ),
    ("# ", 65_536, "a", "\r\n", "", Status::Done),
    // a name has 64 letters at most
    ("load ", 64, "a", "\r\n<a/>\n.\n", "ok\n", Status::Done),
    (
        "load ",
        65,
        "a",
        "\r\n<a/>\n.\n",
        "! 2 bad name at line 1\n",
        Status::SomeRefused,
    ),
    ("mark ", 64, "a", "\r\n", "ok\n", Status::Done),
    (
        "mark ",
        65,
        "a",
        "\r\n",
        "! 2 bad name at line 1\n",
        Status::SomeRefused,
    ),
    // a selection has 64 phrases at most, and 64 filters directly round one another
    (
        "load x\n<a>a</a>\n.\nquery collection()//a[. contains text \"a\"",
        63,
        " ftor \"a\"",
        "]\n",
        "ok\n= 1\ndoc(\"x\")/a[1]\n",
        Status::Done,
    ),
    (
        "query collection()//a[. contains text \"a\"",
        64,
        " ftor \"a\"",
        "]\n",
        "! 7 query: phrases at 608\n",
        Status::SomeRefused,
    ),
    (
        "load x\n<a>a</a>\n.\nquery collection()//a[. contains text \"a\"",
        64,
        " ordered",
        "]\n",
        "ok\n= 1\ndoc(\"x\")/a[1]\n",
        Status::Done,
    ),
    (
        "query collection()//a[. contains text \"a\"",
        65,
        " ordered",
        "]\n",
        "! 7 query: deep at 548\n",
        Status::SomeRefused,
    ),
];

#[test]
fn lines_names_and_selections_have_a_longest(rt: HostRuntime) -> Result<(), Fail> {
    for row in &REPEATED {
        expect_repeated(&rt, rt.alloc(), *row)?;
    }
    Ok(())
}

#[test]
fn a_document_has_a_million_tokens_at_most(rt: HostRuntime) -> Result<(), Fail> {
    for row in &TOKENS {
        expect_repeated(&rt, rt.alloc(), *row)?;
    }
    Ok(())
}

#[test]
fn a_document_has_a_million_nodes_at_most(rt: HostRuntime) -> Result<(), Fail> {
    for row in &NODES {
        expect_repeated(&rt, rt.alloc(), *row)?;
    }
    Ok(())
}

/// What stands before and after levels, how one is opened and closed, how many there are, and what is written.
type NestedRow = (
    &'static str,
    &'static str,
    &'static str,
    &'static str,
    &'static str,
    usize,
    &'static str,
);

const LEVELS: [NestedRow; 6] = [
    (
        "load x\n",
        "<a>",
        "",
        "</a>",
        "\n.\n",
        201,
        "! 6 document: depth at 600\n",
    ),
    (
        "load x\n",
        "<a>",
        "",
        "</a>",
        "\n.\nload x\n<a/>\n.\n",
        200,
        "ok\n! 3 name taken: x\n",
    ),
    (
        "load x\n",
        "<a>",
        "<b/>",
        "</a>",
        "\n.\ninsert last collection()//b\n<c/>\n.\nquery collection()//c\n",
        199,
        "ok\n! 13 limit: depth\n= 0\n",
    ),
    (
        "load x\n",
        "<a>",
        "<b/>",
        "</a>",
        "\n.\ninsert last collection()//b\n<c/>\n.\nquery collection()//c/d\ndrop y\n",
        198,
        "ok\nok\n= 0\n! 4 no such name: y\n",
    ),
    (
        "load x\n<a>a</a>\n.\nquery collection()//a[. contains text ",
        "(",
        "\"a\"",
        ")",
        "]\ndrop y\n",
        64,
        "ok\n= 1\ndoc(\"x\")/a[1]\n! 4 no such name: y\n",
    ),
    (
        "query collection()//a[. contains text ",
        "(",
        "\"a\"",
        ")",
        "]\n",
        65,
        "! 7 query: deep at 96\n",
    ),
];

fn expect_nested(rt: &impl Abort, alloc: Global, row: NestedRow) -> Result<(), Fail> {
    let (before, open, inside, close, suffix, count, output) = row;
    let prefix = repeated(alloc, before, count, open, inside)?;
    let session = repeated(alloc, prefix.as_str(), count, close, suffix)?;
    expect_output(rt, alloc, session.as_str(), &[output], Status::SomeRefused)
}

#[test]
fn elements_and_parentheses_have_a_deepest_level(rt: HostRuntime) -> Result<(), Fail> {
    for row in &LEVELS {
        expect_nested(&rt, rt.alloc(), *row)?;
    }
    Ok(())
}

/// A command that brings a document or a list, and its block; how many there may be; what comes then, and what it writes.
type FullRow = (
    &'static str,
    &'static str,
    usize,
    &'static str,
    &'static str,
);

const FULL: [FullRow; 3] = [
    (
        "load ",
        "<a/>",
        4096,
        "load e\n<a>\n.\nload d7\n<a/>\n.\ndrop d7\nload e\n<a/>\n.\n",
        "! 5 full at 4096 documents\n! 3 name taken: d7\nok\nok\n",
    ),
    // a list of a name that is there is read, a bad one of a new name isn't
    (
        "stop ",
        "the",
        64,
        "stop e\n-\n.\nstop d7\n-\n.\nstop d7\nthe\n.\nstop e\nthe\n.\nthesaurus e\nr | a | b\n.\n",
        "! 5 full at 64 stop lists\n! 6 list: bad line 1\nok\n! 5 full at 64 stop lists\nok\n",
    ),
    (
        "thesaurus ",
        "r | a | b",
        64,
        "thesaurus e\n-\n.\nthesaurus d7\n-\n.\nthesaurus d7\nr | a | b\n.\nthesaurus e\nr | a | b\n.\nstop e\nthe\n.\n",
        "! 5 full at 64 thesauri\n! 6 list: bad line 1\nok\n! 5 full at 64 thesauri\nok\n",
    ),
];

/// So many commands, each with a name of its own from `d0` on, and the block.
fn numbered(
    alloc: Global,
    command: &str,
    block: &str,
    count: usize,
    suffix: &str,
) -> Result<String, AllocError> {
    let mut session = String::new(alloc);
    for number in 0..count {
        session.push_str(command)?;
        write!(session, "d{number}\n")?;
        session.push_str(block)?;
        session.push_str("\n.\n")?;
    }
    session.push_str(suffix)?;
    Ok(session)
}

fn expect_full(rt: &impl Abort, alloc: Global, row: FullRow) -> Result<(), Fail> {
    let (command, block, count, further, replies) = row;
    let session = numbered(alloc, command, block, count, further)?;
    let output = repeated(alloc, "", count, "ok\n", replies)?;
    let answered = is_answered(
        alloc,
        session.as_bytes(),
        NEVER,
        NEVER,
        &[output.as_str()],
        Status::SomeRefused,
    )?;
    assert!(rt; answered, "{command}");
    Ok(())
}

#[test]
fn documents_and_lists_are_no_more_than_there_may_be(rt: HostRuntime) -> Result<(), Fail> {
    for row in &FULL {
        expect_full(&rt, rt.alloc(), *row)?;
    }
    Ok(())
}
