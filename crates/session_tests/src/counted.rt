// Words that are counted in one window, sentence or paragraph.
use crate::rows::{TruthRow, expect_truths};
use std::test::Fail;

const IN_WINDOWS: [TruthRow; 11] = [
    (
        "a x a y y a",
        r#""a" occurs at least 2 times window 3 words"#,
        true,
    ),
    (
        "a x a y y a",
        r#""a" occurs at least 3 times window 5 words"#,
        false,
    ),
    (
        "a x a y y a",
        r#""a" occurs exactly 1 times window 3 words"#,
        true,
    ),
    (
        "a x a y y a",
        r#""a" occurs exactly 2 times ftand "y" window 4 words"#,
        true,
    ),
    // a window may begin before the first word, and end behind the last one
    (
        "a a a",
        r#""a" occurs exactly 1 times window 2 words"#,
        true,
    ),
    // an upper bound counts what lies in the window alone
    (
        "a a",
        r#""a" occurs from 1 to 1 times window 1 words"#,
        true,
    ),
    (
        "a b b",
        r#""a" ftand "b" occurs at most 1 times window 2 words"#,
        true,
    ),
    // what is negated may stand outside
    (
        "c a a b",
        r#""a" occurs exactly 2 times ftand ftnot "b" window 3 words"#,
        true,
    ),
    (
        "b a x a b",
        r#""a" occurs exactly 2 times ftand ftnot "b" window 5 words"#,
        false,
    ),
    // each phrase of a value is counted, at one place too
    (
        "a",
        r#"{"a", "a"} occurs exactly 2 times window 1 words"#,
        true,
    ),
    (
        "a. a. b. a",
        r#""a" occurs exactly 2 times window 2 sentences"#,
        true,
    ),
];

const IN_SCOPES: [TruthRow; 6] = [
    // not the first words of a value alone are counted
    (
        "a a. a b",
        r#""a" occurs exactly 2 times ftand "b" same sentence"#,
        false,
    ),
    (
        "a a. a b",
        r#""a" occurs exactly 1 times ftand "b" same sentence"#,
        true,
    ),
    (
        "a. a",
        r#""a" occurs at least 2 times same sentence"#,
        false,
    ),
    (
        "a. a",
        r#""a" occurs at least 2 times same paragraph"#,
        true,
    ),
    (
        "a b. a a",
        r#"("a" occurs exactly 2 times) ftand ftnot "b" same sentence"#,
        true,
    ),
    // outside filters nothing changes
    (
        "a. a b",
        r#"ftnot ("a" occurs exactly 2 times same sentence)"#,
        true,
    ),
];

#[test]
fn words_are_counted_in_windows(rt: HostRuntime) -> Result<(), Fail> {
    expect_truths(&rt, rt.alloc(), &IN_WINDOWS)
}

#[test]
fn words_are_counted_in_sentences_and_paragraphs(rt: HostRuntime) -> Result<(), Fail> {
    expect_truths(&rt, rt.alloc(), &IN_SCOPES)
}
