//! Whether atoms cover a text, where there is no memory for a row of places.

ghost use Rattle.std.specs.Prelude.{◌≡◌, ◌≤◌, ◌∷◌, ◌&&◌, drop, length, chars};
ghost use Rattle.match_options.specs.declared.atom.Atom.TheVariants.{Letter, Gap};
ghost use Rattle.match_options.specs.Wildcards as spec;

use crate::atom::Atom;
use crate::row::fits_gap;

/// Whether the atoms from that number on, counted from 0, cover the text exactly. It takes no memory.
#[cycle(cover)]
pub(crate) fn covers_from(atoms: &[Atom], next: usize, text: &str) -> bool
    requires { next ≤ length atoms.now }
    ensures { result ≡ spec.covers (drop next atoms.now) (chars text.now) }
{
    if next == atoms.len() {
        return text.is_empty();
    }
    match atoms[next] {
        Atom::Letter(letter) => letter_covers(letter, atoms, next + 1, text),
        Atom::Gap(low, high) => gap_covers(low, high, atoms, next + 1, text),
    }
}

/// The same of a letter and the atoms after it.
#[cycle(cover)]
fn letter_covers(letter: char, atoms: &[Atom], next: usize, text: &str) -> bool
    requires { next ≤ length atoms.now }
    ensures { result ≡ spec.covers (Letter letter ∷ drop next atoms.now) (chars text.now) }
{
    let mut rest = text.chars();
    match rest.next() {
        None => false,
        Some(first) => letter == first && covers_from(atoms, next, rest.as_str()),
    }
}

/// The same of a gap and the atoms after it: it may stand for each number of characters in turn.
#[cycle(cover)]
fn gap_covers(low: u32, high: Option<u32>, atoms: &[Atom], next: usize, text: &str) -> bool
    requires { next ≤ length atoms.now }
    ensures { result ≡ spec.covers (Gap low high ∷ drop next atoms.now) (chars text.now) }
{
    let mut rest = text.chars();
    for count in 0..=text.len() {
        if so_many_covers(low, high, count, atoms, next, rest.as_str()) {
            return true;
        }
        let Some(_letter) = rest.next() else {
            return false;
        };
    }
    false
}

/// Whether the gap may stand for so many characters, and the atoms after it cover the text after them.
#[cycle(cover)]
fn so_many_covers(
    low: u32,
    high: Option<u32>,
    count: usize,
    atoms: &[Atom],
    next: usize,
    rest: &str,
) -> bool
    requires { next ≤ length atoms.now }
    ensures { result ≡ (spec.fits_gap low high count && spec.covers (drop next atoms.now) (chars rest.now)) }
{
    if !fits_gap(low, high, count) {
        return false;
    }
    covers_from(atoms, next, rest)
}
