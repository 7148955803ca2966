// Texts that are no paths, with their faults, and commands that are refused for their paths.
use crate::rows::expect_output;
use call_tests::texts::{joined, query_refusal, repeated};
use ft_base::{Memory, QueryFault};
use ft_session::Status;
use path_subset::{ReadPath, read_path};
use std::alloc::Global;
use std::process::Abort;
use std::test::Fail;

/// A path, and the refusal of a query with it.
type FaultRow = (&'static str, &'static str);

// The first symbol that can't stand.
const SYNTAX: [FaultRow; 29] = [
    ("foo()/a", "syntax at 0"),
    ("1000001x", "syntax at 0"),
    ("doc()/a", "syntax at 4"),
    (r#"doc("x)/a"#, "syntax at 4"),
    ("collection()", "syntax at 12"),
    ("collection()//1000000", "syntax at 14"),
    ("collection()/a]", "syntax at 14"),
    ("collection()/a ?", "syntax at 15"),
    (r#"collection()/a contains text "a""#, "syntax at 15"),
    ("collection()/a[", "syntax at 15"),
    ("collection()/a[1.]", "syntax at 15"),
    ("collection()/a[1x]", "syntax at 15"),
    ("collection()/a[1000001x]", "syntax at 15"),
    ("collection()/a[.[1]]", "syntax at 16"),
    ("collection()/a[(1)]", "syntax at 16"),
    ("collection()/a[b)]", "syntax at 16"),
    ("collection()/a[(b]]", "syntax at 17"),
    ("collection()/a[1 or b]", "syntax at 17"),
    ("collection()/a[foo (", "syntax at 19"),
    (r#"collection()/a[@k = "v]"#, "syntax at 20"),
    (r#"collection()/a[. contains "a"]"#, "syntax at 26"),
    ("collection()/a[. contains text", "syntax at 30"),
    ("collection()/a[. contains text]", "syntax at 30"),
    (r#"collection()/a[. contains text "a]"#, "syntax at 31"),
    (
        r#"collection()/a[. contains text "a" ("b")]"#,
        "syntax at 35",
    ),
    (r#"collection()/a[. contains text "a" ?]"#, "syntax at 35"),
    (r#"collection()/a[. contains text "a" at]"#, "syntax at 37"),
    (
        r#"collection()/a[. contains text "a" or "b"]"#,
        "syntax at 38",
    ),
    (
        r#"collection()/a[. contains text "a" not(@k)]"#,
        "syntax at 38",
    ),
];

// Numbers over a million, and the faults of selections: the first selection that has one counts, and it comes before what stands
// after the selection.
const FURTHER: [FaultRow; 18] = [
    ("1000001", "number at 0"),
    ("collection()//1000001", "number at 14"),
    ("collection()/a[1000001]", "number at 15"),
    ("collection()//a[1000001]", "number at 16"),
    ("collection()/a[1000001][", "number at 15"),
    ("collection()/a[. contains text 1000001]", "number at 31"),
    (
        r#"collection()/a[. contains text "a" 1000001]"#,
        "number at 35",
    ),
    (
        r#"collection()/a[. contains text "a" window 1000001 words]"#,
        "number at 42",
    ),
    (
        r#"collection()/a[. contains text "a" using stemming using stemming]"#,
        "option twice at 50",
    ),
    (
        r#"collection()/a[. contains text "a" using stemming using stemming]["#,
        "option twice at 50",
    ),
    (
        r#"collection()/a[. contains text "a" using stemming using stemming]/]"#,
        "option twice at 50",
    ),
    (
        r#"collection()/a[. contains text "a" using stemming using stemming ?"#,
        "option twice at 50",
    ),
    (
        r#"collection()/a[. contains text "a" using stemming using stemming][1000001]"#,
        "option twice at 50",
    ),
    (
        r#"collection()/a[. contains text "a" using stemming using stemming or . contains text]"#,
        "option twice at 50",
    ),
    (
        r#"collection()/a[. contains text "a" using stemming using stemming at]"#,
        "syntax at 67",
    ),
    (
        r#"collection()/a[. contains text "a" not in "b" occurs at least 1 times or . contains text "c" using language "x" using language "y"]"#,
        "mild not exclude at 46",
    ),
    (
        r#"collection()/a[. contains text "a" and . contains text "b" using stemming using stemming and . contains text]"#,
        "option twice at 74",
    ),
    (
        r#"collection()/a[. contains text "a"][b contains text "b" at][. contains text "c" using stemming using stemming]"#,
        "syntax at 58",
    ),
];

/// Whether reading was refused in these words.
fn is_refused(
    alloc: Global,
    read: Result<ReadPath, QueryFault>,
    words: &str,
) -> Result<bool, Memory> {
    match read {
        Ok(path) => {
            std::mem::drop(path);
            Ok(false)
        }
        Err(fault) => Ok(query_refusal(alloc, fault)?.as_str() == words),
    }
}

/// Compares the fault of a text, alone and as the path of a query.
fn expect_fault(rt: &impl Abort, alloc: Global, path: &str, fault: &str) -> Result<(), Fail> {
    let refusal = joined(alloc, &["! 7 query: ", fault, "\n"])?;
    let refused = is_refused(alloc, read_path(alloc, path), refusal.as_str())?;
    assert!(rt; refused, "{path}");
    let session = joined(alloc, &["query ", path, "\n"])?;
    expect_output(
        rt,
        alloc,
        session.as_str(),
        &[refusal.as_str()],
        Status::SomeRefused,
    )
}

/// Tries rows one after the other.
fn expect_faults(rt: &impl Abort, alloc: Global, rows: &[FaultRow]) -> Result<(), Fail> {
    for row in rows {
        let (path, fault) = *row;
        expect_fault(rt, alloc, path, fault)?;
    }
    Ok(())
}

#[test]
fn the_first_symbol_that_cannot_stand_has_its_place(rt: HostRuntime) -> Result<(), Fail> {
    expect_faults(&rt, rt.alloc(), &SYNTAX)
}

#[test]
fn numbers_and_faults_of_selections_have_their_places(rt: HostRuntime) -> Result<(), Fail> {
    expect_faults(&rt, rt.alloc(), &FURTHER)
}

#[test]
fn no_text_is_no_path(rt: HostRuntime) -> Result<(), Fail> {
    let refused = is_refused(
        rt.alloc(),
        read_path(rt.alloc(), ""),
        "! 7 query: syntax at 0\n",
    )?;
    assert!(rt; refused);
    Ok(())
}

// What opens a 65th level after 64 brackets.
const OPENINGS: [&str; 4] = ["a[", "@(", "@[", "b["];

/// Tries openings one after the other.
fn expect_all_deep(rt: &impl Abort, alloc: Global, openings: &[&'static str]) -> Result<(), Fail> {
    for opening in openings {
        let path = repeated(alloc, "collection()/", 64, "a[", opening)?;
        expect_fault(rt, alloc, path.as_str(), "deep at 142")?;
    }
    Ok(())
}

#[test]
fn the_65th_level_has_its_place(rt: HostRuntime) -> Result<(), Fail> {
    expect_all_deep(&rt, rt.alloc(), &OPENINGS)
}

// What may stand in 64 brackets: a selection has levels of its own.
const INSIDES: [&str; 2] = ["1", r#". contains text ((("a")))"#];

/// Tries what stands in them one after the other.
fn expect_all_nested(rt: &impl Abort, alloc: Global, insides: &[&'static str]) -> Result<(), Fail> {
    for inside in insides {
        let prefix = repeated(alloc, "query collection()/", 64, "a[", inside)?;
        let session = repeated(alloc, prefix.as_str(), 64, "]", "\n")?;
        expect_output(rt, alloc, session.as_str(), &["= 0\n"], Status::Done)?;
    }
    Ok(())
}

#[test]
fn a_path_has_64_levels(rt: HostRuntime) -> Result<(), Fail> {
    expect_all_nested(&rt, rt.alloc(), &INSIDES)
}

// Commands in a session that holds a document `x`, and their refusals in the order in which they are tried.
const REFUSALS: [FaultRow; 19] = [
    (
        "query collection()//a[1000001]",
        "! 7 query: number at 16\n",
    ),
    ("query collection()", "! 7 query: syntax at 12\n"),
    ("query foo", "! 7 query: syntax at 0\n"),
    (
        r#"query collection()//[. contains text "a"]"#,
        "! 7 query: syntax at 14\n",
    ),
    (
        r#"query collection()//1a[. contains text "a"]"#,
        "! 7 query: syntax at 14\n",
    ),
    (
        r#"query collection()///a[. contains text "a"]"#,
        "! 7 query: syntax at 14\n",
    ),
    (
        r#"query collection()//a[. contains text "a"] ]x"#,
        "! 7 query: syntax at 37\n",
    ),
    (r#"print doc("y")//a["#, "! 7 query: syntax at 12\n"),
    (r#"query doc("y")//a"#, "! 8 no such document: y\n"),
    (r#"print doc("y")//a"#, "! 8 no such document: y\n"),
    (r#"query doc("X")//a"#, "! 8 no such document: X\n"),
    (r#"query doc("")//a"#, "! 8 no such document: \n"),
    (
        r#"query doc("y")//a[. contains text "a" using stop words at "nope"]"#,
        "! 8 no such document: y\n",
    ),
    (
        r#"query doc("y")//a[. contains text "a" window 3 words]"#,
        "! 8 no such document: y\n",
    ),
    (
        r#"query collection()//a[. contains text "a" using stop words at "nope"]"#,
        "! 9 no such list: nope\n",
    ),
    (
        r#"query doc("x")//z[. contains text "a"][. contains text "a" using thesaurus at "t" or . contains text "b" using stop words at "s"]"#,
        "! 9 no such list: t\n",
    ),
    (
        r#"print collection()//a[. contains text "a" ordered and . contains text "a" using stop words at "nope"]"#,
        "! 9 no such list: nope\n",
    ),
    (
        r#"query collection()//a[. contains text "a" and . contains text "a" "b"]"#,
        "! 7 query: syntax at 60\n",
    ),
    ("delete collection()//b", "! 10 no target\n"),
];

fn expect_refusal(rt: &impl Abort, alloc: Global, command: &str, reply: &str) -> Result<(), Fail> {
    let session = joined(alloc, &["load x\n<a>x</a>\n.\n", command, "\n"])?;
    expect_output(
        rt,
        alloc,
        session.as_str(),
        &["ok\n", reply],
        Status::SomeRefused,
    )
}

/// Tries rows one after the other.
fn expect_refusals(rt: &impl Abort, alloc: Global, rows: &[FaultRow]) -> Result<(), Fail> {
    for row in rows {
        let (command, reply) = *row;
        expect_refusal(rt, alloc, command, reply)?;
    }
    Ok(())
}

#[test]
fn refusals_are_tried_in_order(rt: HostRuntime) -> Result<(), Fail> {
    expect_refusals(&rt, rt.alloc(), &REFUSALS)
}
