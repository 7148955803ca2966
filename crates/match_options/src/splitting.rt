//! The parts of a query string between white space.

ghost use Rattle.std.specs.Prelude.{◌≡◌, ◌++◌, ◌∷◌, List, ℕ, [], IfOk, OnOk, chars, encode_utf8_all};
ghost use Rattle.match_options.specs.Patterns as spec;
ghost use Rattle.match_options.specs.steps.PartsLeft.{ended, parts_left};

use ft_base::{Items, Lines, Memory, letters_of, text_of};
use std::alloc::Global;

/// The parts of the string between the characters of Unicode's White_Space.
pub fn parts(alloc: Global, string: &str) -> Result<Lines, Memory>
    ensures { IfOk result (λ parts. parts ≡ spec.parts string.now) }
{
    let letters = letters_of(alloc, string)?;
    split(alloc, &letters)
}

fn split(alloc: Global, letters: &[char]) -> Result<Lines, Memory>
    ensures { IfOk result (λ parts. parts ≡ parts_left [] letters.now) }
{
    let mut parts = Items::new(alloc);
    let mut part = Vec::new(alloc);
    for letter in letters {
        pass_letter(alloc, &mut parts, &mut part, *letter)?;
    }
    end_part(alloc, &mut parts, &part)?;
    Ok(parts)
}

/// Ends the part before white space, and goes on with it elsewhere.
fn pass_letter(
    alloc: Global,
    parts: &mut Lines,
    part: &mut Vec<char>,
    letter: char,
) -> Result<(), Memory>
    ensures { OnOk result ((rest : List ℕ) →
        parts.new ++ parts_left part.new.items rest ≡ parts.old ++ parts_left part.old.items (letter ∷ rest)) }
{
    if letter.is_whitespace() {
        end_part(alloc, parts, part.as_slice())?;
        part.clear();
    } else {
        part.push(letter)?;
    }
    Ok(())
}

/// Puts a part to the end, unless it is empty.
fn end_part(alloc: Global, parts: &mut Lines, part: &[char]) -> Result<(), Memory>
    ensures { OnOk result (parts.new ≡ parts.old ++ ended part.now) }
{
    if part.is_empty() {
        return Ok(());
    }
    let text = text_of(alloc, part)?;
    parts.push(text)
}
