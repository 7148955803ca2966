// Positional filters and `not in`: which Matches they keep, and which excludes.
use crate::rows::{NEVER, Row, TruthRow, expect_rows, expect_truths, is_answered};
use call_tests::texts::repeated;
use ft_session::Status;
use std::alloc::Global;
use std::process::Abort;
use std::test::Fail;

const ORDERED: [TruthRow; 8] = [
    ("a x b", r#""b" ftand "a" ordered"#, false),
    ("a x b", r#""a" ftand "b" ordered"#, true),
    ("a c b", r#"({"a", "b"} all ftand "c") ordered"#, false),
    ("a b", r#"("a" ftand ftnot "b") ordered"#, false),
    ("b a", r#"("a" ftand ftnot "b") ordered"#, true),
    (
        "a x b",
        r#"("b" ftand "a") ordered distance exactly 1 words"#,
        false,
    ),
    // after a distance stands one include, which is in order
    (
        "a x b",
        r#"("b" ftand "a") distance exactly 1 words ordered"#,
        true,
    ),
    (
        "a b c",
        r#"(("a" ftand "c" distance exactly 1 words) ftand ftnot "b") ordered"#,
        false,
    ),
];

const WINDOWS: [TruthRow; 17] = [
    (
        "a b c",
        r#"("a" ftand "c" ftand ftnot "b") window 3 words"#,
        false,
    ),
    // the window that starts at 0 doesn't reach `b`
    (
        "a c b",
        r#"("a" ftand "c" ftand ftnot "b") window 3 words"#,
        true,
    ),
    ("y", r#"(ftnot "x") window 3 words"#, false),
    ("b a b", r#"("a" ftand ftnot "b") window 2 words"#, false),
    ("a b", r#"("a" ftand ftnot "b") window 2 words"#, true),
    // each window leaves out one of both words
    (
        "b a x c",
        r#"("a" ftand ftnot ("b" ftand "c")) window 3 words"#,
        true,
    ),
    ("a x b", r#"("a" ftand "b") window 2 words"#, false),
    ("a x b", r#"("a" ftand "b") window 0 words"#, false),
    ("a x b", r#"("a" ftand "b") window 1 sentences"#, true),
    ("a. b", r#"("a" ftand "b") window 1 sentences"#, false),
    (
        "a x x b",
        r#"("a" ftand ftnot "b") window 1 sentences"#,
        false,
    ),
    ("<p>a</p><p>b</p>", r#""a b" window 1 paragraphs"#, false),
    (
        "<p>a</p><p>b</p>",
        r#"("a" ftand "b") window 2 paragraphs"#,
        true,
    ),
    // of a window inside a selection the joined hit is left
    (
        "a b c",
        r#"(("a" ftand "b" window 2 words) ftand ftnot "c") window 2 words"#,
        true,
    ),
    (
        "a b c",
        r#"(("a" ftand "c" window 3 words) ftand ftnot "b") window 3 words"#,
        false,
    ),
    (
        "a b x c",
        r#"(("a" ftand "b" window 2 words) ftand "c") window 4 words"#,
        true,
    ),
    (
        "a b x c",
        r#"(("a" ftand "b" window 2 words) ftand "c") window 3 words"#,
        false,
    ),
];

const DISTANCES: [TruthRow; 16] = [
    ("a x b", r#"("b" ftand "a") distance exactly 1 words"#, true),
    (
        "a x x b",
        r#"("a" ftand "b") distance from 0 to 1 words"#,
        false,
    ),
    ("a b", r#"("a" ftand "b") distance at least 1 words"#, false),
    (
        "a b c d",
        r#"("a b c" ftand "a" ftand "d") distance at most 0 words"#,
        true,
    ),
    ("x", r#"(ftnot "x") distance at most 3 words"#, true),
    (
        "a b",
        r#"("a" ftand ftnot "b") distance at most 3 words"#,
        false,
    ),
    (
        "b a",
        r#"("a" ftand ftnot "b") distance at most 3 words"#,
        false,
    ),
    (
        "a x b",
        r#"("a" ftand ftnot "b") distance exactly 0 words"#,
        true,
    ),
    (
        "a b x c",
        r#"(("a" ftand "b" window 2 words) ftand "c") distance exactly 1 words"#,
        true,
    ),
    (
        "a b c",
        r#"(("a" ftand "b" window 2 words) ftand "c") distance exactly 1 words"#,
        false,
    ),
    (
        "Stop. Go now! Yes",
        r#""stop" ftand "yes" distance exactly 1 sentences"#,
        true,
    ),
    (
        "Stop. Go now! Yes",
        r#""stop" ftand "yes" distance exactly 0 sentences"#,
        false,
    ),
    // two hits in one sentence are less than nothing apart
    (
        "a b",
        r#"("a" ftand "b") distance at most 0 sentences"#,
        true,
    ),
    (
        "a b",
        r#"("a" ftand "b") distance from 0 to 0 sentences"#,
        false,
    ),
    (
        "<p>a</p><p>x</p><p>b</p>",
        r#"("a" ftand "b") distance exactly 1 paragraphs"#,
        true,
    ),
    (
        "<p>a</p><p>x</p><p>b</p>",
        r#"("a" ftand ftnot "b") distance at most 0 paragraphs"#,
        true,
    ),
];

const SCOPES: [TruthRow; 15] = [
    (
        "Stop. Go now! Yes",
        r#""stop" ftand "go" same sentence"#,
        false,
    ),
    (
        "Stop. Go now! Yes",
        r#""go" ftand "now" same sentence"#,
        true,
    ),
    (
        "Stop. Go now! Yes",
        r#""stop" ftand "go" different sentence"#,
        true,
    ),
    (
        "stop. go",
        r#"("go" ftand "stop") different sentence"#,
        true,
    ),
    ("a. b", r#"("a" ftand "a") different sentence"#, false),
    ("a b", r#"("a" ftand ftnot "b") same sentence"#, false),
    ("a. b", r#"("a" ftand ftnot "b") same sentence"#, true),
    ("a. b", r#"("a" ftand ftnot "b") different sentence"#, false),
    ("a b", r#"("a" ftand ftnot "b") different sentence"#, true),
    // a hit that reaches over the end of a sentence is in none
    ("a. b", r#"(ftnot "a b") same sentence"#, true),
    ("<p>a</p><p>b</p>", r#""a b" same paragraph"#, false),
    ("a. b", r#""a b" same paragraph"#, true),
    (
        "<p>a</p><p>b</p>",
        r#"("a" ftand ftnot "b") same paragraph"#,
        true,
    ),
    (
        "<p>a</p><p>b</p>",
        r#"("a" ftand ftnot "b") different paragraph"#,
        false,
    ),
    (
        "a b. c",
        r#"(("a" ftand "b" window 2 words) ftand "c") same sentence"#,
        false,
    ),
];

const ANCHORS: [TruthRow; 19] = [
    ("a b", r#""a b" entire content"#, true),
    ("a b c", r#""a b" entire content"#, false),
    ("a b", r#""b" at end"#, true),
    ("a b c", r#""b" at end"#, false),
    ("a b", r#""a" ftor "b" at end"#, true),
    ("b", r#""a" ftor "b" at end"#, true),
    ("a b c", r#""a" ftor "b" at end"#, false),
    ("a b", r#""a" at start"#, true),
    ("a b", r#""b" at start"#, false),
    ("Test text", r#""t.+t" using wildcards"#, true),
    ("Test text", r#""t.{2,2}t" using wildcards at end"#, true),
    (
        "Test text",
        r#""t.{2,2}t" using wildcards entire content"#,
        false,
    ),
    // excludes stay after anchors
    ("a b", r#"("a" ftand ftnot "b") at start"#, false),
    ("a b", r#"("b" ftand ftnot "a") at end"#, false),
    ("a b", r#"("a b" ftand ftnot "a") entire content"#, false),
    // a joined hit is whole where words stand on each of its places
    (
        "a x b",
        r#"(("a" ftand "b") window 3 words) entire content"#,
        false,
    ),
    (
        "a b",
        r#"(("a" ftand "b") window 2 words) entire content"#,
        true,
    ),
    ("", r#"(ftnot "a") entire content"#, true),
    ("", r#"(ftnot "a") at start"#, false),
];

const MILD_NOTS: [TruthRow; 8] = [
    ("new mexico", r#""mexico" not in "new mexico""#, false),
    ("new mexico mexico", r#""mexico" not in "new mexico""#, true),
    ("mexico", r#""mexico" not in "new mexico""#, true),
    ("new", r#""mexico" not in "new mexico""#, false),
    // one place outside is enough
    ("a b c", r#""a b" not in "b c""#, true),
    ("a b", r#"("a" not in "a b") ftor "b""#, true),
    ("a b a", r#"("a" not in "a b") window 1 words"#, true),
    ("b a", r#"("a" not in "a b") at start"#, false),
];

// Filters beside, round and inside what is decided by truth values and counts, and under options.
const MIXED: [TruthRow; 12] = [
    ("a x b", r#"ftnot (("a" ftand "b") window 2 words)"#, true),
    ("a b", r#"ftnot (("a" ftand "b") window 2 words)"#, false),
    (
        "a a b",
        r#""a" occurs exactly 2 times ftand ("a" ftand "b" window 2 words)"#,
        true,
    ),
    (
        "a b",
        r#""a" occurs exactly 2 times ftand ("a" ftand "b" window 2 words)"#,
        false,
    ),
    (
        "a x b c",
        r#"("a" ftand "b" window 2 words) ftor ("b" ftand "c" window 2 words)"#,
        true,
    ),
    (
        "a x b",
        r#"(("a" ftor "b") ftand "b") distance exactly 1 words"#,
        true,
    ),
    ("b a", r#"{"a b", "c"} any word at start"#, true),
    ("b a", r#"{"a b"} all words ordered"#, false),
    ("b a", r#"{"a", "b"} phrase at start"#, false),
    (
        "A b",
        r#"("a" ftand "b" window 2 words) using case sensitive"#,
        false,
    ),
    (
        "A b",
        r#"("a" ftand "b" window 2 words) using case insensitive"#,
        true,
    ),
    (
        "propagating few errors",
        r#""propagating of errors" using stop words ("of") entire content"#,
        true,
    ),
];

const SESSIONS: [Row; 3] = [
    // the words of an element count from its own first one
    (
        r#"load x
<a>x <b>y</b></a>
.
query collection()//b[. contains text "y" at start]
query collection()//*[. contains text "y" at start]
query collection()//*[. contains text "y" at end]
query collection()//*[. contains text "y" entire content]
"#,
        r#"ok
= 1
doc("x")/a[1]/b[1]
= 1
doc("x")/a[1]/b[1]
= 2
doc("x")/a[1]
doc("x")/a[1]/b[1]
= 1
doc("x")/a[1]/b[1]
"#,
        Status::Done,
    ),
    // so do its sentences, wherever it begins
    (
        r#"load x
<a>u. v <b>w. x</b> y. z</a>
.
query collection()//*[. contains text "w" ftand "x" same sentence]
query collection()//*[. contains text "w" ftand "x" window 2 sentences]
query collection()//*[. contains text "w" ftand "x" distance exactly 0 sentences]
query collection()//*[. contains text "v" ftand "w" same sentence]
query collection()//*[. contains text "x" ftand ftnot "y" same sentence]
"#,
        r#"ok
= 0
= 2
doc("x")/a[1]
doc("x")/a[1]/b[1]
= 2
doc("x")/a[1]
doc("x")/a[1]/b[1]
= 1
doc("x")/a[1]
= 1
doc("x")/a[1]/b[1]
"#,
        Status::Done,
    ),
    // paragraphs of two documents
    (
        r#"load m
<d><p>The harbour watch saw a storm leave harbour.</p><p>The harbour watch saw a storm leave the harbour.</p></d>
.
load n
<d><p>No storm.</p><p>harbour</p></d>
.
query collection()//p[. contains text "storm" ftand ftnot "harbour" window 6 words]
query collection()/d[. contains text "storm" ftand ftnot "harbour" window 6 words]
query collection()//p[. contains text "storm" ftand "watch" distance at most 2 words]
query collection()//p[. contains text "harbour" not in "the harbour"]
query collection()//p[. contains text "storm"][. contains text "harbour" at end]
query collection()//p[. contains text "storm" at end or . contains text "harbour" entire content]
print doc("n")//p[. contains text ("no" ftand "storm") ordered window 2 words]
drop n
query collection()//*[. contains text "storm" at end]
query collection()/d[. contains text "harbour" ftand "the" different paragraph]
"#,
        r#"ok
ok
= 2
doc("m")/d[1]/p[2]
doc("n")/d[1]/p[1]
= 2
doc("m")/d[1]
doc("n")/d[1]
= 2
doc("m")/d[1]/p[1]
doc("m")/d[1]/p[2]
= 2
doc("m")/d[1]/p[1]
doc("n")/d[1]/p[2]
= 2
doc("m")/d[1]/p[1]
doc("m")/d[1]/p[2]
= 2
doc("n")/d[1]/p[1]
doc("n")/d[1]/p[2]
= 1
<p>No storm.</p>
ok
= 0
= 1
doc("m")/d[1]
"#,
        Status::Done,
    ),
];

#[test]
fn includes_stand_in_order(rt: HostRuntime) -> Result<(), Fail> {
    expect_truths(&rt, rt.alloc(), &ORDERED)
}

#[test]
fn windows_hold_hits(rt: HostRuntime) -> Result<(), Fail> {
    expect_truths(&rt, rt.alloc(), &WINDOWS)
}

#[test]
fn hits_have_distances(rt: HostRuntime) -> Result<(), Fail> {
    expect_truths(&rt, rt.alloc(), &DISTANCES)
}

#[test]
fn hits_share_sentences_and_paragraphs(rt: HostRuntime) -> Result<(), Fail> {
    expect_truths(&rt, rt.alloc(), &SCOPES)
}

#[test]
fn hits_stand_at_the_ends(rt: HostRuntime) -> Result<(), Fail> {
    expect_truths(&rt, rt.alloc(), &ANCHORS)
}

#[test]
fn matches_stand_outside_others(rt: HostRuntime) -> Result<(), Fail> {
    expect_truths(&rt, rt.alloc(), &MILD_NOTS)
}

#[test]
fn filters_stand_in_selections(rt: HostRuntime) -> Result<(), Fail> {
    expect_truths(&rt, rt.alloc(), &MIXED)
}

#[test]
fn elements_are_filtered_by_their_own_words(rt: HostRuntime) -> Result<(), Fail> {
    expect_rows(&rt, rt.alloc(), &SESSIONS)
}

/// What stands between a thousand `a` and a thousand `b`, and the reply to a window of two words.
const LONG_TEXTS: [(&str, &str); 2] = [("c c ", "ok\n= 0\n"), ("", "ok\n= 1\ndoc(\"x\")/a[1]\n")];

fn expect_long_text(rt: &impl Abort, alloc: Global, row: (&str, &str)) -> Result<(), Fail> {
    let (between, output) = row;
    let first = repeated(alloc, "load x\n<a>", 1000, "a ", between)?;
    let query = "</a>\n.\nquery collection()/a[. contains text \"a\" ftand \"b\" window 2 words]\n";
    let session = repeated(alloc, first.as_str(), 1000, "b ", query)?;
    let answered = is_answered(
        alloc,
        session.as_bytes(),
        NEVER,
        NEVER,
        &[output],
        Status::Done,
    )?;
    assert!(rt; answered, "{between}");
    Ok(())
}

#[test]
fn a_window_lies_between_many_words(rt: HostRuntime) -> Result<(), Fail> {
    for row in LONG_TEXTS {
        expect_long_text(&rt, rt.alloc(), row)?;
    }
    Ok(())
}
