// Patterns with wildcards: which parts of a string are patterns, which are badly formed, and which words they cover.
use ft_base::{Case, Options};
use match_options::{PlaceRow, Wild, WildFault, has_bad_pattern, items_of};
use std::alloc::Global;
use std::process::Abort;
use std::test::Fail;

// Whether wildcards are on, a string, and how many words and patterns it has.
const ITEMS: [(bool, &str, usize); 7] = [
    (false, "a-b c.", 3),
    (true, "a-b c.", 3),
    (true, "a-b.", 1),
    (false, "a-b.", 2),
    (true, " - ", 0),
    (true, "t.+t\u{a0}..\u{2003}x", 3),
    (true, "", 0),
];

#[test]
fn strings_have_words_and_patterns(rt: HostRuntime) -> Result<(), Fail> {
    for (wildcards, string, count) in ITEMS {
        let items = items_of(rt.alloc(), wildcards, string)?;
        assert!(rt; items.len() == count, "{string}");
    }
    Ok(())
}

// A string, and whether it holds a badly formed pattern.
const BAD: [(&str, bool); 3] = [
    ("a .{2,1} b", true),
    ("ab\\", true),
    ("{2,1} .{1,2} \\.", false),
];

#[test]
fn strings_hold_badly_formed_patterns(rt: HostRuntime) -> Result<(), Fail> {
    for (string, bad) in BAD {
        assert!(rt; has_bad_pattern(rt.alloc(), string)? == bad, "{string}");
    }
    Ok(())
}

fn is_read(alloc: Global, pattern: &str) -> Result<bool, Fail> {
    match Wild::read(alloc, pattern, &Options::none()) {
        Ok(_) => Ok(true),
        Err(WildFault::BadWildcard) => Ok(false),
        Err(WildFault::Memory) => Err(Fail::from("memory")),
    }
}

const READ: [(&str, bool); 8] = [
    ("t.+t", true),
    ("stra..e", true),
    (".{0,1000000}", true),
    (".{0,1000001}", false),
    (".{2,1}", false),
    (".{1,2", false),
    ("ab\\", false),
    ("", false),
];

#[test]
fn patterns_are_read(rt: HostRuntime) -> Result<(), Fail> {
    for (pattern, read) in READ {
        assert!(rt; is_read(rt.alloc(), pattern)? == read, "{pattern}");
    }
    Ok(())
}

/// Compares whether the pattern, read under the case option, covers the form, in the row of places and without it.
fn expect_covered(
    rt: &impl Abort,
    alloc: Global,
    row: &mut PlaceRow,
    case: Case,
    pattern: &str,
    form: &str,
    covered: bool,
) -> Result<(), Fail> {
    let mut options = Options::none();
    options.case = Some(case);
    match Wild::read(alloc, pattern, &options) {
        Ok(wild) => {
            assert!(rt; wild.accepts(form) == covered, "{pattern}");
            assert!(rt; wild.accepts_in(form, row)? == covered, "{pattern}");
        }
        Err(_) => assert!(rt; false, "{pattern}"),
    }
    Ok(())
}

const COVERED: [(Case, &str, &str, bool); 24] = [
    (Case::Insensitive, "stra.e", "strasse", false),
    (Case::Insensitive, "stra..e", "strasse", true),
    (Case::Insensitive, "t.+t", "tt", false),
    (Case::Insensitive, "t.+t", "tat", true),
    (Case::Insensitive, "t.*t", "tt", true),
    (Case::Insensitive, "t.?t", "tat", true),
    (Case::Insensitive, "t.?t", "taat", false),
    (Case::Insensitive, "a.", "a", false),
    (Case::Insensitive, "a.", "ab", true),
    (Case::Insensitive, "a.", "abc", false),
    (Case::Insensitive, ".{2,3}", "a", false),
    (Case::Insensitive, ".{2,3}", "ab", true),
    (Case::Insensitive, ".{2,3}", "abc", true),
    (Case::Insensitive, ".{2,3}", "abcd", false),
    (Case::Insensitive, ".{0,1000000}", "", true),
    (Case::Insensitive, ".{0,1000000}", "abc", true),
    (Case::Insensitive, "a.?b.?b", "abbb", true),
    (Case::Insensitive, ".*b.{1,1}", "bab", false),
    (Case::Insensitive, "ÉT.", "ete", true),
    (Case::Insensitive, "\\.x", ".x", true),
    (Case::Insensitive, "a-b.", "a", false),
    (Case::Insensitive, ".", "é", true),
    (Case::Sensitive, "ÉT.", "ETe", true),
    (Case::Sensitive, "ÉT.", "ete", false),
];

#[test]
fn patterns_cover_words(rt: HostRuntime) -> Result<(), Fail> {
    let mut row = PlaceRow::new(rt.alloc());
    for (case, pattern, form, covered) in COVERED {
        expect_covered(&rt, rt.alloc(), &mut row, case, pattern, form, covered)?;
    }
    Ok(())
}

// Whether a word of 1,100 letters is covered.
const LONG: [(&str, bool); 5] = [
    (".*a.*a.*a.*a.*b", false),
    (".*a.*a.*a.*a.*", true),
    (".{0,1000000}a", true),
    (".{0,1099}", false),
    (".{1100,1100}", true),
];

#[test]
fn patterns_cover_long_words(rt: HostRuntime) -> Result<(), Fail> {
    let mut word = String::new(rt.alloc());
    for _ in 0..1100 {
        word.push('a')?;
    }
    let mut row = PlaceRow::new(rt.alloc());
    for (pattern, covered) in LONG {
        expect_covered(
            &rt,
            rt.alloc(),
            &mut row,
            Case::Insensitive,
            pattern,
            word.as_str(),
            covered,
        )?;
    }
    Ok(())
}
