ghost use Rattle.std.specs.Prelude.{◌≡◌, IfOk, map};
ghost use Rattle.std.specs.Char.{to_ascii_lowercase};
ghost use Rattle.text_forms.specs.Forms.{exact_of, plain_marks_of, plain_case_of, key_of};

use crate::marks::is_nonspacing_mark;
use ft_base::{Line, Memory};
use std::alloc::Global;
use unicode::caseless::{Caseless, default_case_fold_str};
use unicode::normalization::to_nfd;

/// The text in canonical decomposition (NFD).
pub fn exact(alloc: Global, text: &str) -> Result<Line, Memory>
    ensures { IfOk result (λ line. line ≡ exact_of text.now) }
{
    if text.is_ascii() {
        return Line::read(alloc, text);
    }
    let decomposed = to_nfd(alloc, text)?;
    Ok(Line::from_string(decomposed))
}

/// The text in canonical decomposition, without nonspacing marks (general category Mn).
pub fn plain_marks(alloc: Global, text: &str) -> Result<Line, Memory>
    ensures { IfOk result (λ line. line ≡ plain_marks_of text.now) }
{
    if text.is_ascii() {
        return Line::read(alloc, text);
    }
    let decomposed = to_nfd(alloc, text)?;
    let bare = decomposed
        .as_str()
        .chars()
        .filter(|c| !is_nonspacing_mark(*c))
        .collect(alloc)?;
    Ok(Line::from_string(bare))
}

/// The text in canonical decomposition, without case: full case folding between two decompositions.
pub fn plain_case(alloc: Global, text: &str) -> Result<Line, Memory>
    ensures { IfOk result (λ line. line ≡ plain_case_of text.now) }
{
    if text.is_ascii() {
        return ascii_lowercase(alloc, text);
    }
    let decomposed = to_nfd(alloc, text)?;
    let folded = default_case_fold_str(alloc, decomposed.as_str())?;
    let folded = to_nfd(alloc, folded.as_str())?;
    Ok(Line::from_string(folded))
}

/// The key of a word: its canonical decomposition without nonspacing marks, with full case folding.
pub fn key(alloc: Global, text: &str) -> Result<Line, Memory>
    ensures { IfOk result (λ line. line ≡ key_of text.now) }
{
    if text.is_ascii() {
        return ascii_lowercase(alloc, text);
    }
    let decomposed = to_nfd(alloc, text)?;
    let folded = decomposed
        .as_str()
        .chars()
        .filter(|character| !is_nonspacing_mark(*character))
        .default_case_fold()
        .collect(alloc)?;
    Ok(Line::from_string(folded))
}

fn ascii_lowercase(alloc: Global, text: &str) -> Result<Line, Memory>
    ensures { IfOk result (λ line. line ≡ map to_ascii_lowercase text.now) }
{
    let mut lowered = String::from_str(alloc, text)?;
    lowered.make_ascii_lowercase();
    Ok(Line::from_string(lowered))
}
