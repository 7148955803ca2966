// Options that are written in a selection: when words are the same under them.
use crate::rows::{TruthRow, expect_truths};
use std::test::Fail;

const CASE_AND_DIACRITICS_ROWS: [TruthRow; 18] = [
    (
        "CAFE\u{301}",
        "\"caf\u{E9}\" using diacritics sensitive",
        true,
    ),
    ("CAFE\u{301}", "\"caf\u{E9}\" using lowercase", false),
    ("CAFE\u{301}", "\"caf\u{E9}\" using uppercase", true),
    ("CAFE\u{301}", "\"cafe\" using diacritics sensitive", false),
    ("CAFE\u{301}", "\"CAFE\" using case sensitive", true),
    ("THE CAF\u{C9}", "\"the cafe\"", true),
    (
        "THE CAF\u{C9}",
        "\"the cafe\" using diacritics sensitive",
        false,
    ),
    ("THE CAF\u{C9}", "\"the cafe\" using uppercase", true),
    ("THE CAF\u{C9}", "\"the cafe\" using lowercase", false),
    ("THE CAF\u{C9}", "\"THE CAFE\" using case sensitive", true),
    (
        "THE CAF\u{C9}",
        "\"THE CAFE\" using case sensitive using diacritics sensitive",
        false,
    ),
    ("the 7", "\"the 7\" using lowercase", true),
    (
        "Stra\u{DF}e",
        "\"strasse\" using case insensitive using diacritics insensitive",
        true,
    ),
    (
        "Stra\u{DF}e",
        "\"STRASSE\" using diacritics sensitive",
        true,
    ),
    // a letter of title case is neither low nor high
    ("\u{1C5}", "\"\u{1C6}\" using lowercase", false),
    ("\u{1C5}", "\"\u{1C6}\" using uppercase", false),
    ("\u{1C6}", "\"\u{1C6}\" using lowercase", true),
    ("\u{1C4}", "\"\u{1C6}\" using uppercase", true),
];

const WILDCARD_ROWS: [TruthRow; 12] = [
    ("Test text", "\"t.+t\" using wildcards", true),
    ("Test text", "\"t.{2,2}t\" using wildcards", true),
    ("stra\u{DF}e", "\"stra.e\" using wildcards", false),
    ("stra\u{DF}e", "\"stra..e\" using wildcards", true),
    ("Stra\u{DF}e", "\"stra..e\" using wildcards", true),
    ("Stra\u{DF}e", "\"stra.e\" using wildcards", false),
    ("a Stra\u{DF}e b", "\"a .* b\" using wildcards", true),
    ("a Stra\u{DF}e b", "\"a.+ b\" using wildcards", false),
    (
        "TAT",
        "\"t.+t\" using case sensitive using wildcards",
        false,
    ),
    ("TAT", "\"t.+t\" using uppercase using wildcards", true),
    ("Tat", "\"t.+t\" using uppercase using wildcards", false),
    ("a", "\"a .*\" using no wildcards", true),
];

const STOP_WORD_ROWS: [TruthRow; 12] = [
    (
        "propagating few errors",
        r#""propagating of errors" using stop words ("of")"#,
        true,
    ),
    (
        "propagating errors",
        r#""propagating of errors" using stop words ("of")"#,
        false,
    ),
    (
        "a x b",
        r#""a the b" using stop words ("the") except ("THE")"#,
        false,
    ),
    (
        "a x b",
        r#"("a" ftand "the b") using stop words ("the")"#,
        true,
    ),
    (
        "a x b",
        r#"("a" ftand "the x") using stop words ("the")"#,
        true,
    ),
    (
        "a x b",
        r#"("a the b") using stop words ("The", "of an") except ("AN")"#,
        true,
    ),
    (
        "a x b",
        r#"("a the") using stop words ("The", "of an") except ("AN")"#,
        true,
    ),
    (
        "a x b",
        r#"("a of b") using stop words ("The", "of an") except ("AN")"#,
        true,
    ),
    (
        "a x b",
        r#"("a an b") using stop words ("The", "of an") except ("AN")"#,
        false,
    ),
    // a written stop word is no pattern, and a pattern is no stop word
    (
        "x",
        r#"("a") using stop words ("a.") using wildcards"#,
        true,
    ),
    (
        "x",
        r#"("b") using stop words ("a.") using wildcards"#,
        false,
    ),
    (
        "x",
        r#"("a.") using stop words ("a.") using wildcards"#,
        false,
    ),
];

// The inner option of a group holds.
const NESTED_ROWS: [TruthRow; 5] = [
    ("Word", r#"("word") using case sensitive"#, false),
    (
        "Word",
        r#"("word" using case insensitive) using case sensitive"#,
        true,
    ),
    (
        "Word",
        r#"("word" using case sensitive) using language "en""#,
        false,
    ),
    (
        "A",
        r#"("a" using case insensitive) using case sensitive"#,
        true,
    ),
    (
        "A",
        r#"("a" using language "en") using case sensitive"#,
        false,
    ),
];

#[test]
fn case_and_diacritics_are_compared(rt: HostRuntime) -> Result<(), Fail> {
    expect_truths(&rt, rt.alloc(), &CASE_AND_DIACRITICS_ROWS)
}

#[test]
fn patterns_stand_for_words(rt: HostRuntime) -> Result<(), Fail> {
    expect_truths(&rt, rt.alloc(), &WILDCARD_ROWS)
}

#[test]
fn stop_words_stand_for_any_word(rt: HostRuntime) -> Result<(), Fail> {
    expect_truths(&rt, rt.alloc(), &STOP_WORD_ROWS)
}

#[test]
fn the_inner_option_holds(rt: HostRuntime) -> Result<(), Fail> {
    expect_truths(&rt, rt.alloc(), &NESTED_ROWS)
}
