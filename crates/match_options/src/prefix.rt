//! The atom at the front of characters.

ghost use Rattle.std.specs.Prelude.{◌≡◌, ◌+◌, ◌≤◌, ◌<◌, IfSome, length};
ghost use Rattle.match_options.specs.Patterns as spec;

use crate::atom::{Atom, Number, SizedAtom};
use ft_base::{MAX_NUMBER, begins_with, digit_run, number_of};

/// The atom that begins with the character, where one does.
pub(crate) fn first_atom(first: char, rest: &[char]) -> Option<SizedAtom>
    ensures value { result ≡ spec.first_atom first rest.now }
    ensures some { IfSome result (λ sized. 0 < sized.size) }
    ensures within { IfSome result (λ sized. sized.size ≤ length rest.now + 1) }
{
    match first {
        '.' => period_before(rest),
        '\\' => backslash_before(rest),
        _ => sized(Atom::Letter(first), 1),
    }
}

fn sized(atom: Atom, size: usize) -> Option<SizedAtom>
    ensures { result ≡ spec.sized atom size }
{
    Some(SizedAtom { atom, size })
}

/// A backslash makes the next character a letter.
fn backslash_before(rest: &[char]) -> Option<SizedAtom>
    ensures value { result ≡ spec.backslash_before rest.now }
    ensures some { IfSome result (λ sized. 0 < sized.size) }
    ensures within { IfSome result (λ sized. sized.size ≤ length rest.now + 1) }
{
    match rest.first() {
        None => None,
        Some(letter) => sized(Atom::Letter(*letter), 2),
    }
}

/// The longest form that begins with a period.
fn period_before(rest: &[char]) -> Option<SizedAtom>
    ensures value { result ≡ spec.period_before rest.now }
    ensures some { IfSome result (λ sized. 0 < sized.size) }
    ensures within { IfSome result (λ sized. sized.size ≤ length rest.now + 1) }
{
    match rest.first() {
        Some('?') => sized(Atom::Gap(0, Some(1)), 2),
        Some('*') => sized(Atom::Gap(0, None), 2),
        Some('+') => sized(Atom::Gap(1, None), 2),
        Some('{') => braces(&rest[1..]),
        _ => sized(Atom::Gap(1, Some(1)), 1),
    }
}

/// A number, a comma, a number and a closing brace, after `.{`.
fn braces(letters: &[char]) -> Option<SizedAtom>
    ensures value { result ≡ spec.braces_at letters.now }
    ensures some { IfSome result (λ sized. 0 < sized.size) }
    ensures within { IfSome result (λ sized. sized.size ≤ length letters.now + 2) }
{
    let Some(low) = number_before(letters, ',') else {
        return None;
    };
    let Some(high) = number_before(&letters[low.size..], '}') else {
        return None;
    };
    if low.value > high.value || high.value > MAX_NUMBER {
        return None;
    }
    sized(
        Atom::Gap(low.value, Some(high.value)),
        low.size + high.size + 2,
    )
}

/// A number with a closing character after it.
fn number_before(letters: &[char], closing: char) -> Option<Number>
    ensures value { result ≡ spec.number_before closing letters.now }
    ensures within { IfSome result (λ number. number.size ≤ length letters.now) }
{
    let digits = digit_run(letters);
    if digits == 0 || !begins_with(&letters[digits..], closing) {
        return None;
    }
    Some(Number {
        value: number_of(&letters[..digits]),
        size: digits + 1,
    })
}
