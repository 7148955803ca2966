// Selections that are read, in their printed form.
use crate::texts::repeated;
use ft_base::{Memory, QueryFault};
use ft_parser::read_selection;
use ft_syntax::{Selection, print_selection};
use std::alloc::Global;
use std::process::Abort;
use std::test::Fail;

// Texts that are printed as they are written.
const PRINTED: [&str; 10] = [
    r#""a" ftor "b" ftand "c" not in "d""#,
    r#"("a" ftor "b") ftand "c""#,
    r#""a" not in ("b" not in "c")"#,
    r#""a" ftor "b" window 3 words ordered at end"#,
    r#"{"a b", "c"} all words occurs from 2 to 3 times using stemming"#,
    r#"(ftnot "a") using stop words ("of", "the") union at "s" using wildcards"#,
    r#""a" using thesaurus (at "t" relationship "r" exactly 2 levels, at "u")"#,
    r#""a" using thesaurus at "t" at least 2 levels at start"#,
    r#""a" using thesaurus at "t" at end"#,
    r#""a" window 1000000 words"#,
];

/// A text, and the printed form of the selection that it is read as.
type RewrittenRow = (&'static str, &'static str);

// Texts, and how the selections that they are read as are printed.
const REWRITTEN: [RewrittenRow; 10] = [
    (r#"{'a'}"#, r#""a""#),
    (r#"(("a"))"#, r#""a""#),
    (r#"("a" ftor "b") at end"#, r#""a" ftor "b" at end"#),
    (r#""a" any"#, r#""a""#),
    (r#"'it''s "x"'"#, r#""it's ""x""""#),
    ("\"a\"\twindow 007 words", r#""a" window 7 words"#),
    (
        r#""a" window 0001000000 words"#,
        r#""a" window 1000000 words"#,
    ),
    (
        r#""a" using wildcards using stemming"#,
        r#""a" using stemming using wildcards"#,
    ),
    (
        r#""a" using thesaurus (at "t")"#,
        r#""a" using thesaurus at "t""#,
    ),
    (
        r#"ftnot (("a" ftand ftnot "b") window 3 words)"#,
        r#"ftnot ("a" ftand ftnot "b" window 3 words)"#,
    ),
];

/// A text, a piece that stands after it so many times, and what stands after these.
type RepeatedRow = (&'static str, usize, &'static str, &'static str);

// Filters that stand directly round one another are 64 at most. Other forms part them, and parentheses without options don't.
const READ: [RepeatedRow; 4] = [
    (r#""a""#, 64, " ordered", ""),
    (r#"("a""#, 64, " ordered", ") using stemming ordered"),
    (r#"ftnot ("a""#, 64, " ordered", ") ordered"),
    (r#"("a""#, 64, " ordered", r#") ftor "b" ordered"#),
];

/// How many parentheses stand round a text, the text, and what stands after.
type NestedRow = (usize, &'static str, &'static str);

// The same for levels of parentheses, those of stop words among them.
const READ_IN_PARENTHESES: [NestedRow; 2] = [
    (64, r#""a""#, r#" ftand ("b")"#),
    (63, r#""a" using stop words ("of")"#, ""),
];

/// Whether what was read is printed so.
fn is_printed(
    alloc: Global,
    read: Result<Selection, QueryFault>,
    printed: &str,
) -> Result<bool, Memory> {
    match read {
        Ok(selection) => {
            let text = print_selection(alloc, &selection);
            std::mem::drop(selection);
            Ok(text?.as_str() == printed)
        }
        Err(_fault) => Ok(false),
    }
}

/// Whether a selection was read.
fn is_read(read: Result<Selection, QueryFault>) -> bool {
    match read {
        Ok(selection) => {
            std::mem::drop(selection);
            true
        }
        Err(_fault) => false,
    }
}

fn expect_printed(rt: &impl Abort, alloc: Global, text: &str, printed: &str) -> Result<(), Fail> {
    let agrees = is_printed(alloc, read_selection(alloc, text), printed)?;
    assert!(rt; agrees, "{text}");
    Ok(())
}

fn expect_read(rt: &impl Abort, alloc: Global, text: &str) {
    let read = is_read(read_selection(alloc, text));
    assert!(rt; read, "{text}");
}

/// Tries texts one after the other.
fn expect_all_printed(rt: &impl Abort, alloc: Global, texts: &[&'static str]) -> Result<(), Fail> {
    for text in texts {
        expect_printed(rt, alloc, text, text)?;
    }
    Ok(())
}

/// Tries rows one after the other.
fn expect_rewritten(rt: &impl Abort, alloc: Global, rows: &[RewrittenRow]) -> Result<(), Fail> {
    for row in rows {
        let (text, printed) = *row;
        expect_printed(rt, alloc, text, printed)?;
    }
    Ok(())
}

/// The same for texts with repeated pieces, which are read.
fn expect_all_read(rt: &impl Abort, alloc: Global, rows: &[RepeatedRow]) -> Result<(), Fail> {
    for row in rows {
        let (before, count, piece, suffix) = *row;
        let text = repeated(alloc, before, count, piece, suffix)?;
        expect_read(rt, alloc, text.as_str());
    }
    Ok(())
}

/// The same for texts in parentheses.
fn expect_all_nested(rt: &impl Abort, alloc: Global, rows: &[NestedRow]) -> Result<(), Fail> {
    for row in rows {
        let (count, inside, suffix) = *row;
        let prefix = repeated(alloc, "", count, "(", inside)?;
        let text = repeated(alloc, prefix.as_str(), count, ")", suffix)?;
        expect_read(rt, alloc, text.as_str());
    }
    Ok(())
}

#[test]
fn a_printed_selection_is_read_as_it_was(rt: HostRuntime) -> Result<(), Fail> {
    expect_all_printed(&rt, rt.alloc(), &PRINTED)
}

#[test]
fn how_a_selection_was_written_is_forgotten(rt: HostRuntime) -> Result<(), Fail> {
    expect_rewritten(&rt, rt.alloc(), &REWRITTEN)
}

#[test]
fn up_to_64_filters_are_read(rt: HostRuntime) -> Result<(), Fail> {
    expect_all_read(&rt, rt.alloc(), &READ)
}

#[test]
fn up_to_64_levels_are_read(rt: HostRuntime) -> Result<(), Fail> {
    expect_all_nested(&rt, rt.alloc(), &READ_IN_PARENTHESES)
}
