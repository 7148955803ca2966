// What is wrong with selections whose symbols spell one.
use crate::rows::{NEVER, is_answered};
use call_tests::texts::{joined, repeated};
use ft_session::Status;
use std::alloc::Global;
use std::process::Abort;
use std::test::Fail;

/// Asks for so many strings `"a"` and then the selection, joined by `ftor`. The first stands at 32, each takes 9 bytes.
fn expect_reply(
    rt: &impl Abort,
    alloc: Global,
    count: usize,
    selection: &str,
    reply: &str,
    status: Status,
) -> Result<(), Fail> {
    let prefix = "query collection()//a[. contains text ";
    let session = repeated(alloc, prefix, count, "\"a\" ftor ", selection)?;
    let session = joined(alloc, &[session.as_str(), "]\n"])?;
    let answered = is_answered(alloc, session.as_bytes(), NEVER, NEVER, &[reply], status)?;
    assert!(rt; answered, "{count} {selection}");
    Ok(())
}

const FAULTLESS: [(usize, &str); 8] = [
    (63, "\"a b c\""),
    (63, "\"a b c\" phrase"),
    (61, "\"a b c\" all words"),
    (63, "\"-\" all words"),
    // a pattern is one word
    (62, "\"a-b. c\" any word using wildcards"),
    (61, "\"a-b c.\" any word using wildcards"),
    (63, "\"a b.\" all using wildcards"),
    (0, "(ftnot (ftnot \"a\"))"),
];

#[test]
fn selections_without_a_fault_are_asked(rt: HostRuntime) -> Result<(), Fail> {
    for (count, selection) in FAULTLESS {
        expect_reply(&rt, rt.alloc(), count, selection, "= 0\n", Status::Done)?;
    }
    Ok(())
}

const FAULTY: [(usize, &str, &str); 12] = [
    // more than 64 phrases
    (64, "\"a b c\"", "! 7 query: phrases at 608\n"),
    (64, "\"a b c\" phrase", "! 7 query: phrases at 608\n"),
    (62, "\"a b c\" all words", "! 7 query: phrases at 590\n"),
    (62, "\"a-b. c\" any word", "! 7 query: phrases at 590\n"),
    (64, "\"-\" all words", "! 7 query: phrases at 608\n"),
    (
        63,
        "\"a-b. c\" any word using wildcards",
        "! 7 query: phrases at 599\n",
    ),
    (
        62,
        "\"a-b c.\" any word using wildcards",
        "! 7 query: phrases at 590\n",
    ),
    // of two faults at one place, phrases come before patterns
    (
        64,
        "\"a .{2,1}\" using wildcards",
        "! 7 query: phrases at 608\n",
    ),
    (
        63,
        "\"a .{2,1}\" using wildcards",
        "! 7 query: bad wildcard at 599\n",
    ),
    (
        0,
        "(ftnot (ftnot \"a\")) window 3 words",
        "! 7 query: inside filter at 40\n",
    ),
    (
        0,
        "\"a\" not in ftnot \"a\"",
        "! 7 query: mild not exclude at 43\n",
    ),
    (
        0,
        "\"a\" using stemming using no stemming",
        "! 7 query: option twice at 51\n",
    ),
];

#[test]
fn the_first_fault_of_a_selection_is_told(rt: HostRuntime) -> Result<(), Fail> {
    for (count, selection, reply) in FAULTY {
        expect_reply(
            &rt,
            rt.alloc(),
            count,
            selection,
            reply,
            Status::SomeRefused,
        )?;
    }
    Ok(())
}
