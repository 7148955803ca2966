// Words that a text has, compared by their keys: without case and diacritics.
use crate::rows::{TruthRow, expect_truths};
use std::test::Fail;

const WORDS: [TruthRow; 14] = [
    ("can't 3.14", "\"can't\"", true),
    ("can't 3.14", "\"3.14\"", true),
    ("can't 3.14", "\"14\"", false),
    ("CAFE\u{301}", "\"caf\u{E9}\"", true),
    ("CAFE\u{301}", "\"cafe\"", true),
    ("Stra\u{DF}e", "\"STRASSE\"", true),
    ("stra", "\"strasse\"", false),
    ("Hello", "\"(hello!)\"", true),
    ("Hello", "\"Hell\"", false),
    ("Hell", "\"Hello\"", false),
    ("foo<b/>bar", "\"foobar\"", false),
    ("foo<b>bar</b>", "\"BAR\"", true),
    ("x <!-- y -->z", "\"y\"", false),
    ("&#120;", "\"x\"", true),
];

#[test]
fn words_are_compared_by_their_keys(rt: HostRuntime) -> Result<(), Fail> {
    expect_truths(&rt, rt.alloc(), &WORDS)
}
