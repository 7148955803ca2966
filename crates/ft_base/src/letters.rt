ghost use Rattle.std.specs.Prelude.{◌≡◌, ◌≤◌, IfOk, chars, encode_utf8_all, length};
ghost use Rattle.std.specs.List.{prefix_len};
ghost use Rattle.ft_base.specs.Letters as spec;

use crate::{Line, MAX_NUMBER, Memory};
use std::alloc::Global;

/// The characters of a text.
pub fn letters_of(alloc: Global, text: &str) -> Result<Vec<char>, Memory>
    ensures { IfOk result (λ letters. letters.items ≡ chars text.now) }
{
    Ok(text.chars().collect(alloc)?)
}

/// The text of characters.
pub fn text_of(alloc: Global, letters: &[char]) -> Result<Line, Memory>
    ensures { IfOk result (λ line. line ≡ encode_utf8_all letters.now) }
{
    let mut text = String::new(alloc);
    for letter in letters {
        text.push(*letter)?;
    }
    Ok(Line::from_string(text))
}

/// Whether the character is one of the ASCII digits.
pub fn is_digit(c: char) -> bool
    ensures { result ≡ spec.is_digit c }
{
    '0' <= c && c <= '9'
}

/// How many digits stand at the front.
pub fn digit_run(letters: &[char]) -> usize
    ensures value { result ≡ prefix_len spec.is_digit letters.now }
    ensures within { result ≤ length letters.now }
{
    let mut size = 0;
    for letter in letters {
        if !is_digit(*letter) {
            return size;
        }
        size += 1;
    }
    size
}

/// What every number past the greatest one is taken for.
const PAST_MAX_NUMBER: u32 = MAX_NUMBER + 1;

/// The number that digits stand for; past `MAX_NUMBER` it is the one after that.
pub fn number_of(digits: &[char]) -> u32
    ensures { result ≡ spec.number_of digits.now }
{
    let mut number: u32 = 0;
    for digit in digits {
        number = (number * 10 + (*digit as u32).saturating_sub(48)).min(PAST_MAX_NUMBER);
    }
    number
}

/// Whether the characters begin with this one.
pub fn begins_with(letters: &[char], first: char) -> bool
    ensures { result ≡ spec.begins_with first letters.now }
{
    match letters.first() {
        None => false,
        Some(c) => *c == first,
    }
}
