//! The symbols of a text.

ghost use Rattle.std.specs.Prelude.{◌≡◌, ◌≤◌, ◌<◌, ◌+◌, IfOk, IsCharBoundary, drop, encode_utf8_all, length};
ghost use Rattle.query_lexer.specs.Symbols as spec;
ghost use Rattle.query_lexer.specs.Symbols.{Stays_within, Steps_to, symbols_of, symbols_within};

use crate::characters::is_blank;
use crate::lexeme::Turn;
use crate::prefix::first_lexeme;
use ft_base::{Items, Memory, letters_of};
use selection_grammar::{Placed, Symbols};
use std::alloc::Global;

/// The symbols of a text with their places, up to the first character that begins none. It reads the text once.
pub fn symbols(alloc: Global, text: &str) -> Result<Symbols, Memory>
    ensures { IfOk result (λ symbols. symbols ≡ symbols_of text.now) }
{
    let letters = letters_of(alloc, text)?;
    all_symbols(alloc, &letters, 0, text.len())
}

/// The symbols of a text from a byte place on, at which a character starts or the text ends, with their places in the text. It reads what stands there once.
pub fn symbols_from(alloc: Global, text: &str, from: usize) -> Result<Symbols, Memory>
    requires { IsCharBoundary text.now from }
    ensures { IfOk result (λ symbols. symbols ≡ spec.symbols_from from text.now) }
{
    let letters = letters_of(alloc, &text[from..])?;
    all_symbols(alloc, &letters, from, text.len())
}

/// The symbols of the characters from a place on, in a text of so many bytes.
fn all_symbols(
    alloc: Global,
    letters: &[char],
    from: usize,
    bytes: usize,
) -> Result<Symbols, Memory>
    requires { from + length (encode_utf8_all letters.now) ≤ bytes }
    ensures { IfOk result (λ symbols. symbols ≡ symbols_within (length letters.now) from letters.now) }
{
    let mut placed = Items::new(alloc);
    let mut next = 0;
    let mut place = from;
    for step in 0..letters.len() {
        if next == letters.len() {
            return Ok(Symbols { placed, bad: None });
        }
        match turn(alloc, letters, bytes, next, place, &mut placed)? {
            Turn::Passed(to, at) => {
                next = to;
                place = at;
            }
            Turn::Bad => return Ok(Symbols {
                placed,
                bad: Some(place),
            }),
        }
    }
    Ok(Symbols { placed, bad: None })
}

/// Passes over a blank, or reads a symbol.
fn turn(
    alloc: Global,
    letters: &[char],
    bytes: usize,
    next: usize,
    place: usize,
    placed: &mut Items<Placed>,
) -> Result<Turn, Memory>
    requires fits { place + length (encode_utf8_all (drop next letters.now)) ≤ bytes }
    requires here { next < length letters.now }
    ensures value { IfOk result (Steps_to letters.now placed.old next place placed.new) }
    ensures within { IfOk result (Stays_within letters.now bytes) }
{
    if is_blank(letters[next]) {
        return Ok(Turn::Passed(next + 1, place + 1));
    }
    let Some(lexeme) = first_lexeme(alloc, &letters[next..])? else {
        return Ok(Turn::Bad);
    };
    let size = lexeme.size;
    let to = place + byte_count(&letters[next..next + size], bytes);
    let one = Placed {
        symbol: lexeme.symbol,
        from: place,
        to,
    };
    placed.push(one)?;
    Ok(Turn::Passed(next + size, to))
}

/// The number of bytes of characters that have at most so many.
fn byte_count(letters: &[char], most: usize) -> usize
    requires { length (encode_utf8_all letters.now) ≤ most }
    ensures { result ≡ length (encode_utf8_all letters.now) }
{
    let mut count = 0;
    for letter in letters {
        count += letter.len_utf8();
    }
    count
}
