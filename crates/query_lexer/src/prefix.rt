//! The symbol at the front of characters.

ghost use Rattle.std.specs.Prelude.{◌≡◌, ◌∷◌, ◌≤◌, ◌<◌, IfOk, IfSome, Some, drop, encode_utf8_all, length};
ghost use Rattle.ft_base.specs.Characters as names;
ghost use Rattle.query_lexer.specs.Symbols as spec;

use crate::characters::{is_quote, is_slash};
use crate::lexeme::{Lexeme, Quoted};
use ft_base::{
    Line, Memory, begins_with, digit_run, is_digit, is_name_char, is_name_start, number_of, text_of,
};
use selection_grammar::Symbol;
use std::alloc::Global;

/// The symbol that begins with the first character.
pub(crate) fn first_lexeme(alloc: Global, letters: &[char]) -> Result<Option<Lexeme>, Memory>
    requires { 0 < length letters.now }
    ensures value { IfOk result (λ lexeme. lexeme ≡ spec.first_lexeme letters.now) }
    ensures within { IfOk result (λ lexeme. IfSome lexeme (λ l. l.size ≤ length letters.now)) }
{
    let first = letters[0];
    if is_name_start(first) {
        name(alloc, letters)
    } else if is_digit(first) {
        Ok(number(letters))
    } else if is_quote(first) {
        string(alloc, letters, first)
    } else if is_slash(first) {
        Ok(Some(slash(letters)))
    } else {
        Ok(mark(first))
    }
}

fn name(alloc: Global, letters: &[char]) -> Result<Option<Lexeme>, Memory>
    ensures value { IfOk result (λ lexeme. lexeme ≡ spec.name_at letters.now) }
    ensures within { IfOk result (λ lexeme. IfSome lexeme (λ l. l.size ≤ length letters.now)) }
{
    let size = name_run(letters);
    let name = text_of(alloc, &letters[..size])?;
    Ok(Some(Lexeme {
        symbol: Symbol::Name(name),
        size,
    }))
}

fn name_run(letters: &[char]) -> usize
    ensures value { result ≡ spec.run_of names.is_name_char letters.now }
    ensures within { result ≤ length letters.now }
{
    let mut size = 0;
    for letter in letters {
        if !is_name_char(*letter) {
            return size;
        }
        size += 1;
    }
    size
}

fn number(letters: &[char]) -> Option<Lexeme>
    ensures value { result ≡ spec.number_at letters.now }
    ensures within { IfSome result (λ l. l.size ≤ length letters.now) }
{
    let size = digit_run(letters);
    if goes_on_as_name(&letters[size..]) {
        return None;
    }
    Some(Lexeme {
        symbol: Symbol::Number(number_of(&letters[..size])),
        size,
    })
}

fn goes_on_as_name(letters: &[char]) -> bool
    ensures { result ≡ spec.goes_on_as_name letters.now }
{
    match letters.first() {
        None => false,
        Some(c) => is_name_char(*c),
    }
}

fn slash(letters: &[char]) -> Lexeme
    requires { 0 < length letters.now }
    ensures value { Some result ≡ spec.slash_at (drop 1 letters.now) }
    ensures within { result.size ≤ length letters.now }
{
    if letters.len() > 1 && letters[1] == '/' {
        Lexeme {
            symbol: Symbol::DoubleSlash,
            size: 2,
        }
    } else {
        Lexeme {
            symbol: Symbol::Slash,
            size: 1,
        }
    }
}

fn mark(c: char) -> Option<Lexeme>
    ensures value { result ≡ spec.mark_at c }
    ensures within { IfSome result (λ l. l.size ≡ 1) }
{
    let symbol = match c {
        '[' => Symbol::OpenBracket,
        ']' => Symbol::CloseBracket,
        '(' => Symbol::OpenParenthesis,
        ')' => Symbol::CloseParenthesis,
        '{' => Symbol::OpenBrace,
        '}' => Symbol::CloseBrace,
        ',' => Symbol::Comma,
        '@' => Symbol::At,
        '=' => Symbol::Equals,
        '.' => Symbol::Period,
        '*' => Symbol::Star,
        '|' => Symbol::VerticalBar,
        _ => return None,
    };
    Some(Lexeme { symbol, size: 1 })
}

fn string(alloc: Global, letters: &[char], quote: char) -> Result<Option<Lexeme>, Memory>
    requires { 0 < length letters.now }
    ensures value { IfOk result (λ lexeme. lexeme ≡ spec.string_at quote (drop 1 letters.now)) }
    ensures within { IfOk result (λ lexeme. IfSome lexeme (λ l. l.size ≤ length letters.now)) }
{
    match quoted(alloc, &letters[1..], quote)? {
        None => Ok(None),
        Some(Quoted { text, size }) => Ok(Some(Lexeme {
            symbol: Symbol::Text(text),
            size: size + 1,
        })),
    }
}

/// A string after its opening quote.
fn quoted(alloc: Global, letters: &[char], quote: char) -> Result<Option<Quoted>, Memory>
    ensures value { IfOk result (λ q. q ≡ spec.quoted_at quote letters.now) }
    ensures within { IfOk result (λ q. IfSome q (λ r. r.size ≤ length letters.now)) }
{
    let mut text = String::new(alloc);
    let mut next = 0;
    while next < letters.len() {
        let letter = letters[next];
        if letter != quote {
            text.push(letter)?;
            next += 1;
        } else if begins_with(&letters[next + 1..], quote) {
            text.push(letter)?;
            next += 2;
        } else {
            return Ok(Some(Quoted {
                text: Line::from_string(text),
                size: next + 1,
            }));
        }
    }
    Ok(None)
}
