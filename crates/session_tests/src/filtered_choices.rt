// Choices of words and phrases under filters and in `not in`, and phrases with several variants.
use crate::rows::{TruthRow, expect_truths, expect_truths_after};
use std::test::Fail;

const CHOICES: [TruthRow; 24] = [
    (
        "a x d",
        r#"("a" ftor "b") ftand ("c" ftor "d") window 2 words"#,
        false,
    ),
    (
        "x b d",
        r#"("a" ftor "b") ftand ("c" ftor "d") window 2 words"#,
        true,
    ),
    (
        "d x b",
        r#"(("a" ftor "b") ftand ("c" ftor "d")) ordered"#,
        false,
    ),
    (
        "d a c",
        r#"(("a" ftor "b") ftand ("c" ftor "d")) ordered"#,
        true,
    ),
    // a side without words has no place in the order
    ("b a", r#"("a" ftand ("!" ftor "b")) ordered"#, false),
    ("a b", r#"("a" ftand ("!" ftor "b")) ordered"#, true),
    ("b a", r#"(("!" ftor "a") ftand "b") ordered"#, false),
    // hits of several lengths, some of them of both sides
    (
        "a b",
        r#"(("a" ftor "a b") ftand ("a" ftor "b")) different sentence"#,
        false,
    ),
    (
        "a. b",
        r#"(("a" ftor "a b") ftand ("a" ftor "b")) different sentence"#,
        true,
    ),
    (
        "b x x c",
        r#"({"a", "b"} any word ftand "c") window 3 words"#,
        false,
    ),
    (
        "b x c",
        r#"({"a", "b"} any word ftand "c") window 3 words"#,
        true,
    ),
    (
        "a b x c",
        r#"({"a b", "b a"} any ftand "c") distance at most 0 words"#,
        false,
    ),
    (
        "a b c",
        r#"({"a b", "b a"} any ftand "c") distance at most 0 words"#,
        true,
    ),
    ("b a", r#"("a" ftor "b" ftor "c") at start"#, true),
    ("x a", r#"("a" ftor "b" ftor "c") at start"#, false),
    ("a b", r#"("a b" ftor "b") entire content"#, true),
    ("a b", r#"("a" ftor "b") entire content"#, false),
    ("a b", r#"("a" ftor "b") not in ("a b" ftor "c")"#, false),
    ("a b b", r#"("a" ftor "b") not in ("a b" ftor "c")"#, true),
    // what is excluded is either of both
    (
        "c a b",
        r#"("a" ftand ftnot ("b" ftor "c")) window 2 words"#,
        false,
    ),
    (
        "c a x",
        r#"("a" ftand ftnot ("b" ftor "c")) window 2 words"#,
        true,
    ),
    // a choice of more than phrases
    ("b c", r#"("a" ftor ("b" ftand "c")) window 1 words"#, false),
    ("b a", r#"("a" ftor ("b" ftand "c")) window 1 words"#, true),
    (
        "x c a",
        r#"(("a" ftand "c" window 2 words) ftor "b") ftand "x" ordered"#,
        false,
    ),
];

const VARIANTS: [TruthRow; 3] = [
    (
        "ny city",
        r#""ny" using thesaurus at "t" entire content"#,
        true,
    ),
    (
        "ny city x",
        r#""ny" using thesaurus at "t" entire content"#,
        false,
    ),
    ("x ny", r#""ny" using thesaurus at "t" at end"#, true),
];

#[test]
fn choices_of_phrases_are_filtered(rt: HostRuntime) -> Result<(), Fail> {
    expect_truths(&rt, rt.alloc(), &CHOICES)
}

#[test]
fn variants_of_phrases_are_filtered(rt: HostRuntime) -> Result<(), Fail> {
    let thesaurus = "thesaurus t\nr | ny | ny city\n.\n";
    expect_truths_after(&rt, rt.alloc(), thesaurus, "ok\n", &VARIANTS)
}
