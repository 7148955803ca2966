// Selections, decided by truth values and counts.
use crate::rows::{TruthRow, expect_truths};
use std::test::Fail;

const BOOLEAN_ROWS: [TruthRow; 9] = [
    ("New Mexico", r#""new" ftand ftnot "york""#, true),
    ("New York", r#""new" ftand ftnot "york""#, false),
    ("a", r#"ftnot (ftnot "a")"#, true),
    ("un ete", r#""x" ftor "ÉTÉ""#, true),
    ("a b", r#""a b""#, true),
    ("a c b", r#""a b""#, false),
    ("a. <p/>b", r#""a b""#, true),
    ("a", r#""""#, false),
    ("b c", r#"{"a", "c"} any word ftor "d""#, true),
];

// How the strings of a value make phrases.
const MODE_ROWS: [TruthRow; 15] = [
    ("a c b", r#"{"a b", "c"} all"#, false),
    ("a c b", r#"{"a b", "c"} all words"#, true),
    ("a c b", r#"{"a b", "c"} any"#, true),
    ("x a b", r#"{"a b", "c"} any"#, true),
    ("x b", r#"{"a b", "c"} any"#, false),
    ("x b", r#"{"a b", "c"} any word"#, true),
    ("a b c", r#"{"a b", "c"} phrase"#, true),
    ("a b x c", r#"{"a b", "c"} phrase"#, false),
    ("c b a", r#"{"a b", "c"} phrase"#, false),
    // a string without a word
    ("a", r#"{"a", "-"} all words"#, true),
    ("a", r#"{"a", "-"} all"#, false),
    ("a", r#"{"a", "-"} any"#, true),
    ("a", r#"{"a", "-"}"#, true),
    ("a", r#""-" all words"#, false),
    ("a", r#""-" any word"#, false),
];

const COUNT_ROWS: [TruthRow; 10] = [
    ("b", r#""a" occurs from 3 to 2 times"#, false),
    ("b", r#""a" occurs at least 0 times"#, true),
    ("a b a", r#""a" occurs exactly 2 times"#, true),
    ("a b a", r#""a" occurs exactly 1 times"#, false),
    ("a b a", r#""a" occurs at most 1 times"#, false),
    ("a a", r#""a" occurs at most 1 times"#, false),
    ("a a a", r#""a a" occurs exactly 2 times"#, true),
    ("a", r#"{"a", "a"} occurs exactly 2 times"#, true),
    (
        "a b a b b",
        r#"{"a", "b"} all occurs exactly 6 times"#,
        true,
    ),
    ("a a b", r#""a" occurs exactly 2 times ftand "b""#, true),
];

#[test]
fn parts_are_joined_by_truth_values(rt: HostRuntime) -> Result<(), Fail> {
    expect_truths(&rt, rt.alloc(), &BOOLEAN_ROWS)
}

#[test]
fn strings_make_phrases_by_their_mode(rt: HostRuntime) -> Result<(), Fail> {
    expect_truths(&rt, rt.alloc(), &MODE_ROWS)
}

#[test]
fn occurrences_are_counted(rt: HostRuntime) -> Result<(), Fail> {
    expect_truths(&rt, rt.alloc(), &COUNT_ROWS)
}
