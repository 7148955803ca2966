// Selections that are explained: how each is printed once it is rewritten, and what is wrong with texts that are none.
use crate::rows::expect_output;
use call_tests::texts::joined;
use ft_session::Status;
use std::alloc::Global;
use std::process::Abort;
use std::test::Fail;

/// A text, and the reply to it as a selection that is to be explained.
type ExplainedRow = (&'static str, &'static str);

const EXPLAINED: [ExplainedRow; 22] = [
    (r#"'a'"#, "= \"a\"\n"),
    (
        r#"ftnot ("a" ftor ftnot "b")"#,
        "= ftnot \"a\" ftand \"b\"\n",
    ),
    (r#"ftnot ftnot "a""#, "! 7 query: syntax at 6\n"),
    (r#"ftnot (ftnot "a")"#, "= \"a\"\n"),
    (
        r#"("a" ftor "a") using stemming"#,
        "= \"a\" using stemming\n",
    ),
    // a group of options that stands further in holds
    (
        r#"("a" using no stemming ftand "b") using stemming"#,
        "= \"a\" using no stemming ftand \"b\" using stemming\n",
    ),
    (r#""a" occurs at least 1 times"#, "= \"a\"\n"),
    // operands are compared as they are written
    (
        r#""a" occurs exactly 1 times ftor "a" occurs from 1 to 1 times"#,
        "= \"a\" occurs exactly 1 times ftor \"a\" occurs from 1 to 1 times\n",
    ),
    (
        r#"("a" ftand "b") ftand ("a" ftand "c")"#,
        "= \"a\" ftand \"b\" ftand \"c\"\n",
    ),
    // of equal operands of a negated selection one is left
    (r#"ftnot ("a" ftor "a")"#, "= ftnot \"a\"\n"),
    (r#"ftnot ("a" ftand "a")"#, "= ftnot \"a\"\n"),
    // under `not in` and under a filter operands only give up their parentheses
    (
        r#"("a" ftor "a") not in "b""#,
        "= (\"a\" ftor \"a\") not in \"b\"\n",
    ),
    (
        r#""b" not in ("a" ftor "a")"#,
        "= \"b\" not in (\"a\" ftor \"a\")\n",
    ),
    (
        r#"(ftnot ("a" ftor "a")) ordered"#,
        "= ftnot (\"a\" ftor \"a\") ordered\n",
    ),
    (
        r#"("a" ftor ("a" ftor "b")) ordered"#,
        "= \"a\" ftor \"a\" ftor \"b\" ordered\n",
    ),
    (
        r#"ftnot ("a" ftand ftnot "b" window 3 words)"#,
        "= ftnot (\"a\" ftand ftnot \"b\" window 3 words)\n",
    ),
    // what is counted in a window stays so
    (
        r#"(("a" occurs exactly 2 times ftand ("b" ftand "b")) using stemming) window 9 words"#,
        "= \"a\" occurs exactly 2 times using stemming ftand \"b\" using stemming ftand \"b\" using stemming window 9 words\n",
    ),
    (
        r#"ftnot ("a" occurs at least 1 times ftand "b" occurs at most 2 times same sentence)"#,
        "= ftnot (\"a\" occurs at least 1 times ftand \"b\" occurs at most 2 times same sentence)\n",
    ),
    // no list is looked at
    (
        r#""a" using stop words at "absent" using thesaurus at "t""#,
        "= \"a\" using thesaurus at \"t\" using stop words at \"absent\"\n",
    ),
    // what is wrong with the form of a text comes before what is wrong with the selection
    (
        r#""a" using stemming using no stemming"#,
        "! 7 query: option twice at 19\n",
    ),
    (
        r#""a" using stemming using no stemming "b""#,
        "! 7 query: syntax at 37\n",
    ),
    (r#""a" ftor"#, "! 7 query: syntax at 8\n"),
];

fn expect_explained(rt: &impl Abort, alloc: Global, row: ExplainedRow) -> Result<(), Fail> {
    let (text, reply) = row;
    let session = joined(alloc, &["explain ", text, "\n"])?;
    let status = if reply.starts_with("!") {
        Status::SomeRefused
    } else {
        Status::Done
    };
    expect_output(rt, alloc, session.as_str(), &[reply], status)
}

#[test]
fn selections_are_explained(rt: HostRuntime) -> Result<(), Fail> {
    for row in &EXPLAINED {
        expect_explained(&rt, rt.alloc(), *row)?;
    }
    Ok(())
}
