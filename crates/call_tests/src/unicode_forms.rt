// The forms of a text: that the tables give the forms of Unicode's own examples.
use ft_base::{Line, Memory};
use std::alloc::Global;
use std::test::Fail;
use text_forms::{exact, is_lower_only, is_upper_only, key, plain_case, plain_marks};

fn is(form: Result<Line, Memory>, wanted: &str) -> bool {
    match form {
        Ok(line) => line.as_str() == wanted,
        Err(Memory) => false,
    }
}

/// Whether the text has these forms: exact, without marks, without case, and without both.
fn has_forms(alloc: Global, text: &str, wanted: &[&str; 4]) -> bool {
    is(exact(alloc, text), wanted[0])
        && is(plain_marks(alloc, text), wanted[1])
        && is(plain_case(alloc, text), wanted[2])
        && is(key(alloc, text), wanted[3])
}

const FORMS: [(&str, [&str; 4]); 18] = [
    ("", ["", "", "", ""]),
    ("Can't", ["Can't", "Can't", "can't", "can't"]),
    ("AZ09_[@", ["AZ09_[@", "AZ09_[@", "az09_[@", "az09_[@"]),
    // NormalizationTest.txt, part 1: a syllable of two and of three letters
    (
        "\u{AC00}",
        [
            "\u{1100}\u{1161}",
            "\u{1100}\u{1161}",
            "\u{1100}\u{1161}",
            "\u{1100}\u{1161}",
        ],
    ),
    (
        "\u{AC01}",
        [
            "\u{1100}\u{1161}\u{11A8}",
            "\u{1100}\u{1161}\u{11A8}",
            "\u{1100}\u{1161}\u{11A8}",
            "\u{1100}\u{1161}\u{11A8}",
        ],
    ),
    // NormalizationTest.txt, part 2: marks of different combining classes are put in order, those of one class stay
    (
        "a\u{315}\u{300}\u{5AE}\u{300}b",
        [
            "a\u{5AE}\u{300}\u{300}\u{315}b",
            "ab",
            "a\u{5AE}\u{300}\u{300}\u{315}b",
            "ab",
        ],
    ),
    (
        "\u{1E0A}\u{323}",
        ["D\u{323}\u{307}", "D", "d\u{323}\u{307}", "d"],
    ),
    ("\u{212B}", ["A\u{30A}", "A", "a\u{30A}", "a"]),
    // composed and decomposed words have one form
    (
        "CAFE\u{301}",
        ["CAFE\u{301}", "CAFE", "cafe\u{301}", "cafe"],
    ),
    ("CAF\u{C9}", ["CAFE\u{301}", "CAFE", "cafe\u{301}", "cafe"]),
    // CaseFolding.txt, status F: one character folds to two
    (
        "Stra\u{DF}e",
        ["Stra\u{DF}e", "Stra\u{DF}e", "strasse", "strasse"],
    ),
    ("\u{1E9E}", ["\u{1E9E}", "\u{1E9E}", "ss", "ss"]),
    ("\u{FB03}", ["\u{FB03}", "\u{FB03}", "ffi", "ffi"]),
    ("\u{130}", ["I\u{307}", "I", "i\u{307}", "i"]),
    // CaseFolding.txt: the final sigma folds to the other one
    ("ΌΣΟΣ", ["Ο\u{301}ΣΟΣ", "ΟΣΟΣ", "ο\u{301}σοσ", "οσοσ"]),
    ("όσος", ["ο\u{301}σος", "οσος", "ο\u{301}σοσ", "οσοσ"]),
    // a mark that spaces (Mc) or encloses (Me) is no nonspacing mark
    (
        "\u{915}\u{93E}\u{941}",
        [
            "\u{915}\u{93E}\u{941}",
            "\u{915}\u{93E}",
            "\u{915}\u{93E}\u{941}",
            "\u{915}\u{93E}",
        ],
    ),
    (
        "a\u{20DD}",
        ["a\u{20DD}", "a\u{20DD}", "a\u{20DD}", "a\u{20DD}"],
    ),
];

#[test]
fn texts_have_their_forms(rt: HostRuntime) -> Result<(), Fail> {
    for (text, wanted) in FORMS {
        assert!(rt; has_forms(rt.alloc(), text, &wanted), "{text}");
    }
    Ok(())
}

const CASES: [(&str, bool, bool); 10] = [
    ("", true, true),
    ("12.5", true, true),
    ("word", true, false),
    ("WORD", false, true),
    ("Word", false, false),
    ("stra\u{DF}e", true, false),
    ("\u{C9}T\u{C9}", false, true),
    // titlecase letters are neither
    ("\u{1C5}", false, false),
    ("\u{2B0}", true, true),
    ("漢字", true, true),
];

#[test]
fn texts_have_one_case_both_or_none(rt: HostRuntime) -> Result<(), Fail> {
    for (text, lower, upper) in CASES {
        assert!(rt;
            is_lower_only(text) == lower && is_upper_only(text) == upper,
            "{text}"
        );
    }
    Ok(())
}
