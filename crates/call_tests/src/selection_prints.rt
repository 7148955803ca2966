// What is printed of selections and of their copies.
use ft_parser::read_selection;
use ft_syntax::{Selection, copy_selection, print_selection};
use std::alloc::Global;
use std::process::Abort;
use std::test::Fail;

fn is_printed(alloc: Global, selection: &Selection, printed: &str) -> Result<bool, Fail> {
    Ok(print_selection(alloc, selection)?.as_str() == printed)
}

/// Whether that is printed of the selection and of its copy.
fn are_printed(alloc: Global, selection: &Selection, printed: &str) -> Result<bool, Fail> {
    let copy = copy_selection(alloc, selection)?;
    let answer = is_printed(alloc, &copy, printed);
    std::mem::drop(copy);
    Ok(answer? && is_printed(alloc, selection, printed)?)
}

/// Reads the selection, and compares what is printed of it and of its copy.
fn expect_print(rt: &impl Abort, alloc: Global, text: &str, printed: &str) -> Result<(), Fail> {
    let Ok(selection) = read_selection(alloc, text) else {
        return Err(Fail::from("no selection"));
    };
    let answer = are_printed(alloc, &selection, printed);
    std::mem::drop(selection);
    assert!(rt; answer?, "{text}");
    Ok(())
}

const PRINTED: [(&str, &str); 5] = [
    ("'New \"York\"'", "\"New \"\"York\"\"\""),
    (
        "\"mexico\" not in ((\"red\" ftand 'été \"x\"') window 3 words)",
        "\"mexico\" not in (\"red\" ftand \"été \"\"x\"\"\" window 3 words)",
    ),
    (
        "ftnot ((\"a\" ftor \"b\") using lowercase using language 'en')",
        "ftnot (\"a\" ftor \"b\") using lowercase using language \"en\"",
    ),
    (
        "\"a\" ftor (ftnot (\"a\" not in (((\"a\" ftand \"b c\" all words) using lowercase) window 3 words)))",
        "\"a\" ftor ftnot (\"a\" not in ((\"a\" ftand \"b c\" all words) using lowercase window 3 words))",
    ),
    (
        "(\"a\" ftand (\"b c\" all words occurs at most 2 times)) using lowercase",
        "(\"a\" ftand \"b c\" all words occurs at most 2 times) using lowercase",
    ),
];

#[test]
fn selections_and_their_copies_are_printed(rt: HostRuntime) -> Result<(), Fail> {
    for (text, printed) in PRINTED {
        expect_print(&rt, rt.alloc(), text, printed)?;
    }
    Ok(())
}
