// Options that name lists: when words are the same under them.
use crate::rows::{TruthRow, expect_truths_after};
use std::test::Fail;

const FEW_LISTS: &str = r#"stems
roses rose
.
thesaurus t
r | a | b
r | b | c
.
stop e
the
.
"#;

const FEW_LISTS_ROWS: [TruthRow; 12] = [
    ("ROSES", r#""rose" using stemming using uppercase"#, true),
    ("Roses", r#""rose" using stemming using uppercase"#, false),
    (
        "rose",
        r#""Roses" using stemming using case sensitive"#,
        true,
    ),
    ("roses", r#""rose""#, false),
    ("c", r#""a" using thesaurus at "t" exactly 1 levels"#, false),
    ("c", r#""a" using thesaurus at "t" at most 2 levels"#, true),
    ("c", r#""a" using thesaurus at "t""#, true),
    ("c", r#""a" using thesaurus at "t" relationship "R""#, false),
    ("a", r#""c" using thesaurus at "t""#, false),
    ("a x b", r#""a the b" using stop words at "e""#, true),
    (
        "a x b",
        r#""a the b" using stop words at "e" except ("the")"#,
        false,
    ),
    (
        "a x b",
        r#"("a" ftand "the x") using stop words at "e""#,
        true,
    ),
];

const LISTS: &str = r#"stop e
the
.
stop f
of
the
.
thesaurus t
r | a | B
r | b | c
s | a | d
r | ny | ny city
r | a b | c
r | big | the x
.
stems
roses rose
a b
b c
.
"#;

const STEMMING_ROWS: [TruthRow; 12] = [
    ("ROSES", r#"("rose") using stemming using uppercase"#, true),
    ("Roses", r#"("rose") using stemming using uppercase"#, false),
    ("Roses", r#"("rose") using stemming using lowercase"#, false),
    (
        "roses",
        r#"("ROSE") using stemming using case sensitive using diacritics sensitive"#,
        true,
    ),
    (
        "Ros\u{E9}s",
        r#"("roses") using stemming using diacritics sensitive"#,
        true,
    ),
    ("roses", r#"("roses") using stemming"#, true),
    // the stem of a stem isn't looked up
    ("b", r#"("a") using stemming"#, false),
    ("c", r#"("a") using stemming"#, false),
    ("c", r#"("b") using stemming"#, true),
    // a pattern isn't stemmed
    ("roses", r#"("ro.e") using stemming using wildcards"#, false),
    ("roses", r#"("ro.es") using stemming using wildcards"#, true),
    ("roses", r#"("rose") using no stemming"#, false),
];

const LEVEL_ROWS: [TruthRow; 15] = [
    (
        "c",
        r#"("a") using thesaurus at "t" exactly 1 levels"#,
        false,
    ),
    (
        "c",
        r#"("a") using thesaurus at "t" at most 2 levels"#,
        true,
    ),
    ("c", r#"("a") using thesaurus at "t""#, true),
    (
        "c",
        r#"("A") using thesaurus at "t" from 2 to 3 levels"#,
        true,
    ),
    (
        "c",
        r#"("a") using thesaurus at "t" at least 3 levels"#,
        false,
    ),
    (
        "a",
        r#"("a") using thesaurus at "t" exactly 0 levels"#,
        true,
    ),
    (
        "b",
        r#"("a") using thesaurus at "t" exactly 0 levels"#,
        false,
    ),
    (
        "b",
        r#"("a") using thesaurus at "t" exactly 1 levels"#,
        true,
    ),
    (
        "b",
        r#"("a") using thesaurus at "t" relationship "s""#,
        false,
    ),
    (
        "d",
        r#"("a") using thesaurus at "t" relationship "s""#,
        true,
    ),
    (
        "d",
        r#"("a") using thesaurus at "t" relationship "r""#,
        false,
    ),
    ("c", r#"("a b") using thesaurus at "t""#, true),
    ("x a b", r#"("a b") using thesaurus at "t""#, true),
    ("New NY", r#"("ny") using thesaurus at "t""#, true),
    ("big", r#"("ny") using thesaurus at "t""#, false),
];

const THESAURUS_ROWS: [TruthRow; 12] = [
    // a phrase that is reached is read as its keys, and is no pattern
    (
        "B",
        r#"("a") using case sensitive using thesaurus at "t""#,
        false,
    ),
    (
        "b",
        r#"("a") using case sensitive using thesaurus at "t""#,
        true,
    ),
    (
        "c",
        r#"("a .") using wildcards using thesaurus at "t""#,
        false,
    ),
    (
        "a b",
        r#"("a .") using wildcards using thesaurus at "t""#,
        true,
    ),
    (
        "a b",
        r#"("a-b") using wildcards using thesaurus at "t""#,
        true,
    ),
    (
        "a b",
        r#"("a-b.") using wildcards using thesaurus at "t""#,
        false,
    ),
    // the phrases are counted by their places
    (
        "ny city",
        r#"("ny" occurs exactly 2 times) using thesaurus at "t""#,
        true,
    ),
    (
        "ny ny city",
        r#"("ny" occurs exactly 3 times) using thesaurus at "t""#,
        true,
    ),
    (
        "a",
        r#"("a" occurs exactly 1 times) using thesaurus at "t""#,
        true,
    ),
    (
        "a b",
        r#"("a" occurs exactly 2 times) using thesaurus at "t""#,
        true,
    ),
    (
        "a b",
        r#"("a b" occurs exactly 1 times) using thesaurus at "t""#,
        true,
    ),
    (
        "a",
        r#"("a" occurs exactly 1 times) using thesaurus at "t" exactly 1 levels using stop words ("b")"#,
        true,
    ),
];

const STOP_LIST_ROWS: [TruthRow; 9] = [
    (
        "a x b",
        r#"("a The b") using thesaurus at "t" using stop words at "e""#,
        true,
    ),
    (
        "a x b",
        r#"("a of b") using thesaurus at "t" using stop words at "e""#,
        false,
    ),
    (
        "a x b",
        r#"("a the b") using thesaurus at "t" using stop words at "e" except ("the")"#,
        false,
    ),
    (
        "a x b",
        r#"("a the b") using thesaurus at "t" using stop words at "e" except ("of")"#,
        true,
    ),
    // in a phrase that is reached too
    (
        "y x",
        r#"("big") using thesaurus at "t" using stop words at "e""#,
        true,
    ),
    (
        "the",
        r#"("big") using thesaurus at "t" using stop words at "e""#,
        false,
    ),
    // the words of one list without those of another
    (
        "a x b",
        r#"("a of b") using stop words at "f" except at "e""#,
        true,
    ),
    (
        "a x b",
        r#"("a the b") using stop words at "f" except at "e""#,
        false,
    ),
    // one list for both sides
    (
        "a x b",
        r#"("a" ftand "the x") using thesaurus at "t" using stop words at "e""#,
        true,
    ),
];

#[test]
fn words_are_compared_under_the_lists(rt: HostRuntime) -> Result<(), Fail> {
    expect_truths_after(&rt, rt.alloc(), FEW_LISTS, "ok\nok\nok\n", &FEW_LISTS_ROWS)
}

#[test]
fn words_are_compared_by_their_stems(rt: HostRuntime) -> Result<(), Fail> {
    expect_truths_after(&rt, rt.alloc(), LISTS, "ok\nok\nok\nok\n", &STEMMING_ROWS)
}

#[test]
fn a_thesaurus_is_followed_by_its_levels(rt: HostRuntime) -> Result<(), Fail> {
    expect_truths_after(&rt, rt.alloc(), LISTS, "ok\nok\nok\nok\n", &LEVEL_ROWS)
}

#[test]
fn phrases_that_are_reached_are_found_and_counted(rt: HostRuntime) -> Result<(), Fail> {
    expect_truths_after(&rt, rt.alloc(), LISTS, "ok\nok\nok\nok\n", &THESAURUS_ROWS)
}

#[test]
fn stop_lists_are_taken_together(rt: HostRuntime) -> Result<(), Fail> {
    expect_truths_after(&rt, rt.alloc(), LISTS, "ok\nok\nok\nok\n", &STOP_LIST_ROWS)
}
