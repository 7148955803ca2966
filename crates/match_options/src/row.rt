//! Whether atoms cover a text, by a row of places.

ghost use Rattle.std.specs.Prelude.{◌≡◌, ◌+◌, ◌-◌, ◌^◌, ◌<◌, ◌∷◌, [], ℕ, suc, List, ◌&&◌, nat_lt, if◌then◌else◌, drop, length, chars};
ghost use Rattle.match_options.specs.declared.atom.Atom as the;
ghost use Rattle.match_options.specs.declared.atom.Atom.TheVariants.{Letter, Gap};
ghost use Rattle.match_options.specs.steps.Row.{IsRow, at_place, reaches};
ghost use Rattle.std.specs.List.{list_any};
ghost use Rattle.match_options.specs.Wildcards as spec;

use crate::atom::Atom;

/// Whether the atoms cover the text exactly, in a row with a place before each character and one at the end. No step is done more often
/// than there are atoms times places. Where no place is left, the atoms further before aren't looked at.
pub(crate) fn covers_in(row: &mut [bool], atoms: &[Atom], text: &str) -> bool
    requires { length row.old ≡ suc (length (chars text.now)) }
    ensures { result ≡ spec.covers atoms.now (chars text.now) }
{
    mark_end(row, text);
    for passed in 0..atoms.len() {
        pass(row, atoms[atoms.len() - 1 - passed], text);
        if !some_place(row) {
            return false;
        }
    }
    row[0]
}

/// Whether what stands after one of the places is covered.
fn some_place(row: &[bool]) -> bool
    ensures { result ≡ list_any (λ place. place) row.now }
{
    row.iter().any(|place| *place)
}

/// Without an atom the end alone is covered.
fn mark_end(row: &mut [bool], text: &str)
    requires { length row.old ≡ suc (length (chars text.now)) }
    ensures { IsRow row.new [] (chars text.now) }
{
    let _text = text;
    for place in 0..row.len() {
        row[place] = place + 1 == row.len();
    }
}

/// The same with one atom more before.
fn pass(row: &mut [bool], atom: Atom, text: &str)
    requires { length row.old ≡ suc (length (chars text.now)) }
    ensures size { length row.new ≡ length row.old }
    ensures known { (atoms : List the.Atom) → IsRow row.old atoms (chars text.now) → IsRow row.new (atom ∷ atoms) (chars text.now) }
{
    match atom {
        Atom::Letter(letter) => pass_letter(row, letter, text),
        Atom::Gap(low, high) => pass_gap(row, low, high),
    }
}

fn pass_letter(row: &mut [bool], letter: char, text: &str)
    requires { length row.old ≡ suc (length (chars text.now)) }
    ensures size { length row.new ≡ length row.old }
    ensures known { (atoms : List the.Atom) → IsRow row.old atoms (chars text.now) → IsRow row.new (Letter letter ∷ atoms) (chars text.now) }
{
    let mut rest = text.chars();
    for place in 0..row.len() {
        row[place] = match rest.next() {
            Some(first) => letter == first && row[place + 1],
            None => false,
        };
    }
}

fn pass_gap(row: &mut [bool], low: u32, high: Option<u32>)
    ensures size { length row.new ≡ length row.old }
    ensures known { (atoms : List the.Atom) (letters : List ℕ) → IsRow row.old atoms letters → IsRow row.new (Gap low high ∷ atoms) letters }
{
    pass_least(row, low);
    pass_more(row, low, high);
}

/// The characters that a gap has at least.
fn pass_least(row: &mut [bool], low: u32)
    ensures size { length row.new ≡ length row.old }
    ensures known { (place : ℕ) → at_place row.new place ≡ at_place row.old (place + low) }
{
    for place in 0..row.len() {
        row[place] = row.len() - place > low as usize && row[place + low as usize];
    }
}

/// The characters that a gap may have beyond.
fn pass_more(row: &mut [bool], low: u32, high: Option<u32>)
    ensures size { length row.new ≡ length row.old }
    ensures known { (place : ℕ) → at_place row.new place ≡ reaches low high (drop place row.old) }
{
    let mut far = 0;
    for passed in 0..row.len() {
        let place = row.len() - 1 - passed;
        far = one_before(row[place], far);
        row[place] = is_reached(low, high, far, row.len() - place);
    }
}

/// How far the nearest such place is, from the place before.
fn one_before(here: bool, far: usize) -> usize
    requires { far < 2 ^ 64 - 1 }
    ensures { result ≡ (if here then 0 else far + 1) }
{
    if here { 0 } else { far + 1 }
}

/// Whether a gap reaches the nearest place, of so many that are left.
fn is_reached(low: u32, high: Option<u32>, far: usize, left: usize) -> bool
    requires { low + far < 2 ^ 64 }
    ensures { result ≡ (nat_lt far left && spec.fits_gap low high (low + far)) }
{
    far < left && fits_gap(low, high, low as usize + far)
}

/// Whether a gap may stand for so many characters.
pub(crate) fn fits_gap(low: u32, high: Option<u32>, count: usize) -> bool
    ensures { result ≡ spec.fits_gap low high count }
{
    match high {
        None => low as usize <= count,
        Some(high) => low as usize <= count && count <= high as usize,
    }
}
