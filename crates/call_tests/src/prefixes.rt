// Selections with which texts begin, and the faults of those that begin with none.
use crate::texts::{query_refusal, repeated};
use ft_base::{Memory, QueryFault};
use ft_parser::{read_prefix, read_run, symbols};
use ft_syntax::{Selection, print_selection};
use std::alloc::Global;
use std::process::Abort;
use std::test::Fail;

/// A text, the place from which it is read, and what comes of it: the place after the selection and its printed form, or the refusal.
type PrefixRow = (&'static str, usize, &'static str);

// The selection is read, and no further.
const READ: [PrefixRow; 14] = [
    (r#""a""#, 0, "3 \"a\"\n"),
    (r#""a" ]"#, 0, "3 \"a\"\n"),
    (r#""a" and ."#, 0, "3 \"a\"\n"),
    (r#""a" or "b""#, 0, "3 \"a\"\n"),
    (r#""a" any or "b""#, 0, "7 \"a\"\n"),
    (r#""a" ?"#, 0, "3 \"a\"\n"),
    (r#""a" 'b"#, 0, "3 \"a\"\n"),
    (r#""a" 1000001"#, 0, "3 \"a\"\n"),
    (r#""a" ("#, 0, "3 \"a\"\n"),
    (r#"("a") )"#, 0, "5 \"a\"\n"),
    (r#""é" ]"#, 0, "4 \"é\"\n"),
    ("é[. contains text 'a' ]", 18, "22 \"a\"\n"),
    (r#""a" and "b""#, 7, "11 \"b\"\n"),
    (
        r#""a" ftor "b" window 3 words] "c""#,
        9,
        "27 \"b\" window 3 words\n",
    ),
];

// The symbol that ends the run too soon, a number over a million in it, or what is wrong with a whole run.
const REFUSED: [PrefixRow; 19] = [
    (r#""a" not(@k)]"#, 0, "! 7 query: syntax at 7\n"),
    (r#""a" at]"#, 0, "! 7 query: syntax at 6\n"),
    (
        r#"x contains text "a" ftand]"#,
        15,
        "! 7 query: syntax at 25\n",
    ),
    (r#"("a" and "b")"#, 0, "! 7 query: syntax at 5\n"),
    (r#""a" ftor "b""#, 3, "! 7 query: syntax at 4\n"),
    ("]", 0, "! 7 query: syntax at 0\n"),
    (r#""a""#, 3, "! 7 query: syntax at 3\n"),
    ("", 0, "! 7 query: syntax at 0\n"),
    (r#""a" ftand "#, 2, "! 7 query: syntax at 2\n"),
    (r#""a" ftand "#, 0, "! 7 query: syntax at 10\n"),
    (r#""a" ftand ?"#, 0, "! 7 query: syntax at 10\n"),
    (r#"[("a""#, 1, "! 7 query: syntax at 5\n"),
    (
        r#""a" window 1000001 words ]"#,
        0,
        "! 7 query: number at 11\n",
    ),
    (r#""a" window 1000001 ]"#, 0, "! 7 query: number at 11\n"),
    (r#""a" ftand 1000001"#, 0, "! 7 query: number at 10\n"),
    (r#""a" ftand ] 1000001"#, 0, "! 7 query: syntax at 10\n"),
    (
        r#"[".{2,1}" using wildcards]"#,
        1,
        "! 7 query: bad wildcard at 1\n",
    ),
    (
        r#""a" not in ftnot "b" ?"#,
        0,
        "! 7 query: mild not exclude at 11\n",
    ),
    (
        r#"".{2,1}" using wildcards ftand]"#,
        0,
        "! 7 query: syntax at 30\n",
    ),
];

/// A text with a piece that stands so many times, the place from which it is read, and the refusal.
type DeepRow = (
    &'static str,
    usize,
    &'static str,
    &'static str,
    usize,
    &'static str,
);

const DEEP: [DeepRow; 6] = [
    ("", 65, "(", r#""a" ]"#, 0, "! 7 query: deep at 64\n"),
    ("", 65, "(", r#""a" ]"#, 1, "! 7 query: syntax at 69\n"),
    (
        r#""a""#,
        64,
        " ordered",
        " ordered ]",
        0,
        "! 7 query: deep at 516\n",
    ),
    (
        r#""a""#,
        64,
        " ordered",
        " at]",
        0,
        "! 7 query: deep at 516\n",
    ),
    (
        r#""a""#,
        64,
        " ordered",
        " window 1000001",
        0,
        "! 7 query: deep at 516\n",
    ),
    (
        r#""a""#,
        64,
        " ordered",
        " at end ordered",
        0,
        "! 7 query: deep at 516\n",
    ),
];

/// A place or a count, and the printed form of the selection.
fn read_text(alloc: Global, selection: Selection, number: usize) -> Result<String, Memory> {
    let printed = print_selection(alloc, &selection);
    std::mem::drop(selection);
    let printed = printed?;
    Ok(format!(in alloc; "{number} {}\n", printed.as_str())?)
}

/// What came of reading.
fn outcome(alloc: Global, read: Result<(Selection, usize), QueryFault>) -> Result<String, Memory> {
    match read {
        Ok((selection, number)) => read_text(alloc, selection, number),
        Err(fault) => Ok(query_refusal(alloc, fault)?.into_string()),
    }
}

/// Reads from the place on, and compares what comes of it.
fn expect_prefix(
    rt: &impl Abort,
    alloc: Global,
    text: &str,
    from: usize,
    expected: &str,
) -> Result<(), Fail> {
    assert!(rt; text.is_char_boundary(from));
    let outcome = outcome(alloc, read_prefix(alloc, text, from))?;
    assert!(rt; outcome.as_str() == expected, "{text}");
    Ok(())
}

/// Tries rows one after the other.
fn expect_prefixes(rt: &impl Abort, alloc: Global, rows: &[PrefixRow]) -> Result<(), Fail> {
    for row in rows {
        let (text, from, expected) = *row;
        expect_prefix(rt, alloc, text, from, expected)?;
    }
    Ok(())
}

#[test]
fn the_longest_prefix_is_read(rt: HostRuntime) -> Result<(), Fail> {
    expect_prefixes(&rt, rt.alloc(), &READ)
}

#[test]
fn prefixes_that_are_no_selections_are_refused(rt: HostRuntime) -> Result<(), Fail> {
    expect_prefixes(&rt, rt.alloc(), &REFUSED)
}

/// Compares the refusal of a text with repeated pieces.
fn expect_deep(rt: &impl Abort, alloc: Global, row: DeepRow) -> Result<(), Fail> {
    let (before, count, piece, suffix, from, expected) = row;
    let text = repeated(alloc, before, count, piece, suffix)?;
    expect_prefix(rt, alloc, text.as_str(), from, expected)
}

/// Tries rows one after the other.
fn expect_all_deep(rt: &impl Abort, alloc: Global, rows: &[DeepRow]) -> Result<(), Fail> {
    for row in rows {
        expect_deep(rt, alloc, *row)?;
    }
    Ok(())
}

#[test]
fn what_is_limited_in_a_prefix_has_its_place(rt: HostRuntime) -> Result<(), Fail> {
    expect_all_deep(&rt, rt.alloc(), &DEEP)
}

/// Compares the place after the selection with which the text begins.
fn expect_place(rt: &impl Abort, alloc: Global, text: &str, place: usize) {
    assert!(rt; text.is_char_boundary(0));
    let end = match read_prefix(alloc, text, 0) {
        Ok((selection, end)) => {
            std::mem::drop(selection);
            Some(end)
        }
        Err(_fault) => None,
    };
    assert!(rt; end == Some(place), "{text}");
}

#[test]
fn what_is_limited_is_counted_in_the_prefix_alone(rt: HostRuntime) -> Result<(), Fail> {
    let levels = repeated(rt.alloc(), "", 64, "(", r#""a""#)?;
    let levels = repeated(rt.alloc(), levels.as_str(), 64, ")", " (")?;
    expect_place(&rt, rt.alloc(), levels.as_str(), 131);
    let filters = repeated(rt.alloc(), r#""a""#, 64, " ordered", " ] ordered")?;
    expect_place(&rt, rt.alloc(), filters.as_str(), 515);
    Ok(())
}

/// Reads the symbols from that number on, and compares what comes of it.
fn expect_run(
    rt: &impl Abort,
    alloc: Global,
    text: &str,
    number: usize,
    expected: &str,
) -> Result<(), Fail> {
    let found = symbols(alloc, text)?;
    let placed = found.placed.as_slice();
    assert!(rt; number <= placed.len());
    let read = read_run(alloc, &placed[number..], found.bad, text.len());
    std::mem::drop(found);
    let outcome = outcome(alloc, read)?;
    assert!(rt; outcome.as_str() == expected, "{text}");
    Ok(())
}

/// The number of the symbol from which a text is read, and what comes of it.
type RunRow = (usize, &'static str);

const RUNS: [RunRow; 3] = [
    (0, "3 \"a\" ftor \"b\"\n"),
    (2, "1 \"b\"\n"),
    (4, "! 7 query: syntax at 15\n"),
];

/// Tries rows one after the other.
fn expect_runs(rt: &impl Abort, alloc: Global, rows: &[RunRow]) -> Result<(), Fail> {
    for row in rows {
        let (number, expected) = *row;
        expect_run(rt, alloc, r#""a" ftor "b" ] ?"#, number, expected)?;
    }
    Ok(())
}

#[test]
fn the_longest_run_of_symbols_is_read(rt: HostRuntime) -> Result<(), Fail> {
    expect_runs(&rt, rt.alloc(), &RUNS)
}
