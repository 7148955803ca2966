//! Whether atoms cover a text.

ghost use Rattle.std.specs.Prelude.{◌≡◌, ◌+◌, ◌-◌, ◌^◌, ◌<◌, ◌≤◌, IfOk, OnErr, length, chars};
ghost use Rattle.match_options.specs.PlaceRows.{place_count};
ghost use Rattle.match_options.specs.Wildcards as spec;

use crate::atom::Atom;
use crate::place_row::PlaceRow;
use crate::row::covers_in;
use crate::trying::covers_from;
use ft_base::Memory;
use std::alloc::Global;

/// Whether the atoms cover the text exactly. Below 1,024 characters this takes no memory. A longer text takes a row from the heap, and where
/// there is none the gaps are tried one by one, so that the call always answers.
pub(crate) fn covers(alloc: Global, atoms: &[Atom], text: &str) -> bool
    ensures { result ≡ spec.covers atoms.now (chars text.now) }
{
    let size = char_count(text);
    if size < 1024 {
        return covers_short(atoms, text, size);
    }
    match places(alloc, size) {
        Ok(mut row) => covers_in(row.as_mut_slice(), atoms, text),
        Err(_memory) => covers_from(atoms, 0, text),
    }
}

/// The same in a row that is kept, which takes memory where the text is longer than each before it.
pub(crate) fn covers_kept(atoms: &[Atom], text: &str, row: &mut PlaceRow) -> Result<bool, Memory>
    ensures known { IfOk result (λ covered. covered ≡ spec.covers atoms.now (chars text.now)) }
    ensures short { OnErr result (place_count row.old ≤ length (chars text.now)) }
{
    let size = char_count(text);
    row.make_room(size)?;
    Ok(covers_in(&mut row.places[..size + 1], atoms, text))
}

fn char_count(text: &str) -> usize
    ensures value { result ≡ length (chars text.now) }
    ensures bound { result < 2 ^ 63 }
{
    text.chars().count()
}

fn covers_short(atoms: &[Atom], text: &str, size: usize) -> bool
    requires size { size ≡ length (chars text.now) }
    requires short { size < 1024 }
    ensures { result ≡ spec.covers atoms.now (chars text.now) }
{
    let mut row = [false; 1024];
    covers_in(&mut row[..size + 1], atoms, text)
}

/// A row for a text of so many characters.
fn places(alloc: Global, size: usize) -> Result<Vec<bool>, Memory>
    requires { size < 2 ^ 64 - 1 }
    ensures { IfOk result (λ row. length row.items ≡ size + 1) }
{
    Ok(vec![in alloc; false; size + 1]?)
}
