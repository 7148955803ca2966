// Words of a text that are the same as words of a query, by their case and their marks.
use crate::rows::{TruthRow, expect_truths};
use std::test::Fail;

const COMPARED: [TruthRow; 12] = [
    ("CAFE\u{301}", "\"café\"", true),
    ("CAFE\u{301}", "\"café\" using diacritics sensitive", true),
    ("CAFE\u{301}", "\"café\" using lowercase", false),
    ("CAFE\u{301}", "\"café\" using uppercase", true),
    ("CAFE\u{301}", "\"cafe\" using diacritics sensitive", false),
    ("CAFE\u{301}", "\"CAFE\" using case sensitive", true),
    ("CAFE\u{301}", "\"café\" using case sensitive", false),
    (
        "CAFE\u{301}",
        "\"CAFÉ\" using case sensitive using diacritics sensitive",
        true,
    ),
    (
        "CAFE\u{301}",
        "\"CAFE\" using case sensitive using diacritics sensitive",
        false,
    ),
    ("7", "\"7\" using lowercase", true),
    ("ǅ", "\"ǆ\" using uppercase", false),
    ("Straße", "\"strasse\"", true),
];

#[test]
fn words_are_compared_by_case_and_marks(rt: HostRuntime) -> Result<(), Fail> {
    expect_truths(&rt, rt.alloc(), &COMPARED)
}
