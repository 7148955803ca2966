// The symbols of texts, with their places.
use ft_base::Memory;
use ft_parser::{Symbol, Symbols, symbols, symbols_from};
use std::alloc::Global;
use std::process::Abort;
use std::test::Fail;

/// A text, the place from which it is read, its symbols with their places, and the place of the character that begins none.
type SymbolRow = (&'static str, usize, &'static str, Option<usize>);

const ROWS: [SymbolRow; 7] = [
    (
        "doc('l''été')\t// été.1[ 0002 ]",
        0,
        "0-3 name doc, 3-4 mark, 4-14 text l'été, 14-15 mark, 16-18 double slash, 19-26 name été.1, 26-27 mark, 28-32 number 2, 33-34 mark, ",
        None,
    ),
    ("é ? b", 0, "0-2 name é, ", Some(3)),
    ("é 'b", 0, "0-2 name é, ", Some(3)),
    ("[1000001x]", 0, "0-1 mark, ", Some(1)),
    ("", 0, "", None),
    (
        "a|b '|'",
        0,
        "0-1 name a, 1-2 mark, 2-3 name b, 4-7 text |, ",
        None,
    ),
    ("é[ab 'é' ?", 3, "3-5 name ab, 6-10 text é, ", Some(11)),
];

/// Adds what the symbol is.
fn add_symbol(text: &mut String, symbol: &Symbol) -> Result<(), Memory> {
    match symbol {
        Symbol::Name(name) => {
            text.push_str("name ")?;
            text.push_str(name.as_str())?;
        }
        Symbol::Text(string) => {
            text.push_str("text ")?;
            text.push_str(string.as_str())?;
        }
        Symbol::Number(number) => write!(text, "number {number}")?,
        Symbol::DoubleSlash => text.push_str("double slash")?,
        _ => text.push_str("mark")?,
    }
    Ok(())
}

/// The symbols, with their places.
fn list_of(alloc: Global, found: &Symbols) -> Result<String, Memory> {
    let mut text = String::new(alloc);
    for placed in found.placed.as_slice() {
        write!(text, "{}-{} ", placed.from, placed.to)?;
        add_symbol(&mut text, &placed.symbol)?;
        text.push_str(", ")?;
    }
    Ok(text)
}

/// Compares the symbols of a text from the place on.
fn expect_symbols(rt: &impl Abort, alloc: Global, row: SymbolRow) -> Result<(), Fail> {
    let (text, from, list, bad) = row;
    assert!(rt; text.is_char_boundary(from));
    let found = if from == 0 {
        symbols(alloc, text)
    } else {
        symbols_from(alloc, text, from)
    };
    let found = found?;
    let shown = list_of(alloc, &found);
    let found_bad = found.bad;
    std::mem::drop(found);
    assert!(rt; found_bad == bad, "{text}");
    let shown = shown?;
    assert!(rt; shown.as_str() == list, "{text}");
    Ok(())
}

/// Tries rows one after the other.
fn expect_all_symbols(rt: &impl Abort, alloc: Global, rows: &[SymbolRow]) -> Result<(), Fail> {
    for row in rows {
        expect_symbols(rt, alloc, *row)?;
    }
    Ok(())
}

#[test]
fn symbols_have_their_places(rt: HostRuntime) -> Result<(), Fail> {
    expect_all_symbols(&rt, rt.alloc(), &ROWS)
}
