//! Patterns of a query string, and their atoms.

ghost use Rattle.std.specs.Prelude.{◌≡◌, IfOk, option_map, chars};
ghost use Rattle.match_options.specs.Patterns as spec;

use crate::atom::{Atom, SizedAtom};
use crate::prefix::first_atom;
use crate::splitting::parts;
use ft_base::{Memory, letters_of};
use std::alloc::Global;

/// Whether the string holds a badly formed pattern, where wildcards are on for it.
pub fn has_bad_pattern(alloc: Global, string: &str) -> Result<bool, Memory>
    ensures { IfOk result (λ bad. bad ≡ spec.holds_bad_pattern string.now) }
{
    let parts = parts(alloc, string)?;
    for part in parts.as_slice() {
        if is_bad_pattern(alloc, part.as_str())? {
            return Ok(true);
        }
    }
    Ok(false)
}

fn is_bad_pattern(alloc: Global, part: &str) -> Result<bool, Memory>
    ensures { IfOk result (λ bad. bad ≡ spec.is_bad_pattern part.now) }
{
    if !is_pattern(part) {
        return Ok(false);
    }
    let atoms = pattern_atoms(alloc, part)?;
    Ok(atoms.is_none())
}

/// Whether a part of a string between white space is a pattern: it holds a period or a backslash.
pub fn is_pattern(part: &str) -> bool
    ensures { result ≡ spec.is_pattern part.now }
{
    part.as_bytes()
        .iter()
        .any(|byte| *byte == b'.' || *byte == b'\\')
}

/// The atoms of a pattern, unless it is badly formed.
pub(crate) fn pattern_atoms(alloc: Global, pattern: &str) -> Result<Option<Vec<Atom>>, Memory>
    ensures { IfOk result (λ atoms. option_map (λ v. v.items) atoms ≡ spec.atoms_of (chars pattern.now)) }
{
    let letters = letters_of(alloc, pattern)?;
    atoms_of(alloc, &letters)
}

fn atoms_of(alloc: Global, letters: &[char]) -> Result<Option<Vec<Atom>>, Memory>
    ensures { IfOk result (λ atoms. option_map (λ v. v.items) atoms ≡ spec.atoms_of letters.now) }
{
    if letters.is_empty() {
        return Ok(None);
    }
    let mut atoms = Vec::new(alloc);
    let mut next = 0;
    while next < letters.len() {
        let Some(SizedAtom { atom, size }) = first_atom(letters[next], &letters[next + 1..]) else {
            return Ok(None);
        };
        atoms.push(atom)?;
        next += size;
    }
    Ok(Some(atoms))
}
