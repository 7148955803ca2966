ghost use Rattle.std.specs.Prelude.{◌≡◌, All, Ok, map, length, IfOk};
ghost use Rattle.text_words.specs.Pieces.{piece_of, IsPieceOf, bytes_at};
ghost use Rattle.text_words.specs.Words.{is_letter_or_number, is_word, words, words_with_places};

use ft_base::Memory;
use std::alloc::Global;
use unicode::properties::{GeneralCategory, GeneralCategoryGroup};
use unicode::segmentation::UnicodeSegmentation;

/// The part of a text from the byte place `from` up to the byte place `to`, counted from 0.
#[derive(Clone, Copy, PartialEq, Eq)]
pub struct Piece {
    pub from: usize,
    pub to: usize,
}

/// The words of the text, in order: its segments between default word boundaries (UAX #29) that hold a letter or a
/// number (general categories L and N).
pub fn words_of(alloc: Global, text: &str) -> Result<Vec<Piece>, Memory>
    ensures places { IfOk result (λ pieces. pieces.items ≡ map piece_of (words_with_places text.now)) }
    ensures words { IfOk result (λ pieces. map (bytes_at text.now) pieces.items ≡ words text.now) }
    ensures inside { IfOk result (λ pieces. All (IsPieceOf text.now) pieces.items) }
{
    let mut pieces = Vec::new(alloc);
    for (from, segment) in text.split_word_bound_indices() {
        if is_word(segment) {
            let to = from + segment.len();
            pieces.push(Piece { from, to })?;
        }
    }
    Ok(pieces)
}

/// How many words the text has.
pub fn count_words(text: &str) -> Result<usize, Memory>
    ensures { result ≡ Ok (length (words text.now)) }
{
    Ok(
        text.split_word_bounds()
            .filter(|segment| is_word(segment))
            .count(),
    )
}

/// Whether the segment holds a letter or a number.
#[inline(always)]
pub fn is_word(segment: &str) -> bool
    ensures { result ≡ is_word segment.now }
{
    segment.chars().any(|c| is_letter_or_number(c))
}

#[inline(always)]
fn is_letter_or_number(c: char) -> bool
    ensures { result ≡ is_letter_or_number c }
{
    if c.is_ascii() {
        return c.is_ascii_alphanumeric();
    }
    let category = GeneralCategory::for_char(c);
    GeneralCategoryGroup::Letter.contains(category)
        || GeneralCategoryGroup::Number.contains(category)
}
