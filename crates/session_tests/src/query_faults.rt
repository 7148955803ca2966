// Texts that are no selections, with their faults: alone, and in the path of a query.
use crate::rows::expect_output;
use call_tests::texts::{joined, query_refusal, repeated};
use ft_base::{Memory, QueryFault};
use ft_parser::read_selection;
use ft_session::Status;
use ft_syntax::Selection;
use std::alloc::Global;
use std::process::Abort;
use std::test::Fail;

/// A text, its fault, and the fault's place in the text.
type FaultRow = (&'static str, &'static str, usize);

/// A text, a piece that stands after it so many times, what stands after these, the fault of it all, and its place.
type RepeatedRow = (
    &'static str,
    usize,
    &'static str,
    &'static str,
    &'static str,
    usize,
);

/// Where a selection begins in the path `collection()//a[. contains text S]`.
const SELECTION_PLACE: usize = 32;

// Texts whose faults are the same in a path.
const FAULTS: [FaultRow; 46] = [
    // the first symbol that can't stand
    ("", "syntax", 0),
    ("foo", "syntax", 0),
    ("foo (", "syntax", 0),
    (r#""a"""#, "syntax", 0),
    (r#""a" "b""#, "syntax", 4),
    (r#""a" ( ("#, "syntax", 4),
    (r#""a"["#, "syntax", 3),
    (r#""a")"#, "syntax", 3),
    ("{}", "syntax", 1),
    (r#"{"a" "b"}"#, "syntax", 5),
    (r#"ftnot ftnot "a""#, "syntax", 6),
    (r#""a" any words"#, "syntax", 8),
    (r#"(("a")) any"#, "syntax", 8),
    (r#""a" ordered ftand "b""#, "syntax", 12),
    (r#""a" not(@k)"#, "syntax", 7),
    (r#""a" at]"#, "syntax", 6),
    (r#""a" at foo"#, "syntax", 7),
    (r#""a" distance at 3 words"#, "syntax", 16),
    (r#""a" using thesaurus at "t" at "u""#, "syntax", 30),
    (r#""a" using thesaurus (at "t" at start)"#, "syntax", 31),
    // the text, or its symbols, end too soon
    (r#"("a""#, "syntax", 4),
    (r#""a" window 3"#, "syntax", 12),
    (r#"".{2,1}" using wildcards ftand"#, "syntax", 30),
    (r#""a" ftand "#, "syntax", 10),
    (r#""a" ftand 'b"#, "syntax", 10),
    (r#""é" ?"#, "syntax", 5),
    (r#""a" 1000001x"#, "syntax", 4),
    // a number over a million
    ("1000001", "number", 0),
    (r#""a" 1000001"#, "number", 4),
    (r#""a" window 1000001 words"#, "number", 11),
    (r#""a" window 0001000001 1000001"#, "number", 11),
    (r#""a" window 99999999999999999999999 words"#, "number", 11),
    (r#""a" occurs at least 1000001 times"#, "number", 20),
    // what is wrong with a whole selection
    (r#"".{2,1}" using wildcards"#, "bad wildcard", 0),
    (r#""ab\" using wildcards"#, "bad wildcard", 0),
    (r#""a" not in ftnot "b""#, "mild not exclude", 11),
    (
        r#""a" not in "b" occurs at least 2 times"#,
        "mild not exclude",
        15,
    ),
    (
        r#""a" using stemming using no stemming"#,
        "option twice",
        19,
    ),
    (r#"(ftnot (ftnot "a")) window 3 words"#, "inside filter", 8),
    (r#""a" occurs at least 2 times at end"#, "inside filter", 4),
    // what is counted in one window, sentence or paragraph asks for a hit, and has no other filter, choice or `all`
    (
        r#""a" occurs at most 0 times window 2 words"#,
        "inside filter",
        4,
    ),
    (
        r#""a" occurs exactly 2 times window 3 words ordered"#,
        "inside filter",
        4,
    ),
    (
        r#"("a" ftor "b" occurs exactly 2 times) same sentence"#,
        "inside filter",
        14,
    ),
    (
        r#"{"a"} all occurs exactly 2 times same sentence"#,
        "inside filter",
        10,
    ),
    (
        r#""a" ftand ftnot ("b" occurs exactly 2 times) same sentence"#,
        "inside filter",
        21,
    ),
    (
        r#""c" not in ("a" occurs exactly 2 times same sentence)"#,
        "mild not exclude",
        16,
    ),
];

// Texts whose symbols a path goes on with.
const FAULTS_ALONE: [FaultRow; 3] = [
    (r#""a" or "b""#, "syntax", 4),
    (r#""a" and "b""#, "syntax", 4),
    (r#""a" ] 1000001"#, "syntax", 4),
];

// The same in a path.
const FAULTS_IN_PATH: [FaultRow; 3] = [
    (r#""a" or "b""#, "syntax", 7),
    (r#""a" and "b""#, "syntax", 8),
    (r#""a" ] ]x"#, "syntax", 6),
];

// The same with pieces that stand many times, one too many of what is limited.
const REPEATED_FAULTS: [RepeatedRow; 13] = [
    // the parenthesis that opens a 65th level
    ("", 65, "(", "", "deep", 64),
    ("", 64, "(", r#"("a""#, "deep", 64),
    ("", 64, "(", r#""a" ("#, "deep", 68),
    ("", 64, "(", r#""a" using stop words ("#, "deep", 85),
    ("", 64, "(", r#""a" using thesaurus ("#, "deep", 84),
    // the 65th filter
    (r#""a""#, 65, " ordered", "", "deep", 516),
    (r#""a""#, 64, " ordered", " at foo", "deep", 516),
    (r#""a""#, 64, " ordered", " same x", "deep", 516),
    (r#""a""#, 64, " ordered", " window x", "deep", 516),
    (r#""a""#, 64, " ordered", " at", "deep", 516),
    (r#"("a""#, 64, " ordered", ") ordered", "deep", 518),
    // the 65th phrase
    (r#""a""#, 64, r#" ftor "a""#, "", "phrases", 576),
    ("{", 64, r#""a", "#, r#""a"}"#, "phrases", 321),
];

/// The words of a fault, and its place.
fn refusal(alloc: Global, words: &str, place: usize) -> Result<String, Fail> {
    Ok(format!(in alloc; "! 7 query: {words} at {place}\n")?)
}

/// Whether reading was refused in these words.
fn is_refused(
    alloc: Global,
    read: Result<Selection, QueryFault>,
    words: &str,
) -> Result<bool, Memory> {
    match read {
        Ok(selection) => {
            std::mem::drop(selection);
            Ok(false)
        }
        Err(fault) => Ok(query_refusal(alloc, fault)?.as_str() == words),
    }
}

/// Compares the fault of a text.
fn expect_fault_alone(
    rt: &impl Abort,
    alloc: Global,
    text: &str,
    words: &str,
    place: usize,
) -> Result<(), Fail> {
    let refusal = refusal(alloc, words, place)?;
    let refused = is_refused(alloc, read_selection(alloc, text), refusal.as_str())?;
    assert!(rt; refused, "{text}");
    Ok(())
}

/// Compares the refusal of a query with the text as its selection.
fn expect_fault_in_path(
    rt: &impl Abort,
    alloc: Global,
    text: &str,
    words: &str,
    place: usize,
) -> Result<(), Fail> {
    let refusal = refusal(alloc, words, SELECTION_PLACE.saturating_add(place))?;
    let session = joined(
        alloc,
        &["query collection()//a[. contains text ", text, "]\n"],
    )?;
    expect_output(
        rt,
        alloc,
        session.as_str(),
        &[refusal.as_str()],
        Status::SomeRefused,
    )
}

/// Compares the fault of a text, alone and in a path.
fn expect_fault(
    rt: &impl Abort,
    alloc: Global,
    text: &str,
    words: &str,
    place: usize,
) -> Result<(), Fail> {
    expect_fault_alone(rt, alloc, text, words, place)?;
    expect_fault_in_path(rt, alloc, text, words, place)
}

/// Tries rows one after the other.
fn expect_faults(rt: &impl Abort, alloc: Global, rows: &[FaultRow]) -> Result<(), Fail> {
    for row in rows {
        let (text, words, place) = *row;
        expect_fault(rt, alloc, text, words, place)?;
    }
    Ok(())
}

/// The same for texts alone.
fn expect_faults_alone(rt: &impl Abort, alloc: Global, rows: &[FaultRow]) -> Result<(), Fail> {
    for row in rows {
        let (text, words, place) = *row;
        expect_fault_alone(rt, alloc, text, words, place)?;
    }
    Ok(())
}

/// The same in paths.
fn expect_faults_in_path(rt: &impl Abort, alloc: Global, rows: &[FaultRow]) -> Result<(), Fail> {
    for row in rows {
        let (text, words, place) = *row;
        expect_fault_in_path(rt, alloc, text, words, place)?;
    }
    Ok(())
}

#[test]
fn faults_have_their_places(rt: HostRuntime) -> Result<(), Fail> {
    expect_faults(&rt, rt.alloc(), &FAULTS)
}

#[test]
fn faults_of_texts_alone_have_their_places(rt: HostRuntime) -> Result<(), Fail> {
    expect_faults_alone(&rt, rt.alloc(), &FAULTS_ALONE)
}

#[test]
fn faults_in_paths_have_their_places(rt: HostRuntime) -> Result<(), Fail> {
    expect_faults_in_path(&rt, rt.alloc(), &FAULTS_IN_PATH)
}

/// Compares the fault of a text with repeated pieces.
fn expect_repeated(rt: &impl Abort, alloc: Global, row: RepeatedRow) -> Result<(), Fail> {
    let (before, count, piece, suffix, words, place) = row;
    let text = repeated(alloc, before, count, piece, suffix)?;
    expect_fault(rt, alloc, text.as_str(), words, place)
}

/// Tries rows one after the other.
fn expect_all_repeated(rt: &impl Abort, alloc: Global, rows: &[RepeatedRow]) -> Result<(), Fail> {
    for row in rows {
        expect_repeated(rt, alloc, *row)?;
    }
    Ok(())
}

#[test]
fn what_is_limited_has_its_place(rt: HostRuntime) -> Result<(), Fail> {
    expect_all_repeated(&rt, rt.alloc(), &REPEATED_FAULTS)
}
