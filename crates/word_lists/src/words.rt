ghost use Rattle.std.specs.Prelude.{◌≡◌, true, false, IfNone, IfOk, IfSome, MatchOption, Some, None, string_bytes};
ghost use Rattle.std.specs.Option.{option_copied};
ghost use Rattle.std.specs.Str.{is_utf8};
ghost use Rattle.text_forms.specs.Forms.{key_of};
ghost use Rattle.text_words.specs.Pieces.{IsPieceOf, bytes_at};
ghost use Rattle.word_lists.specs.Words.{only, only_two, words_of_line};

use ft_base::Memory;
use std::alloc::Global;
use text_forms::key;
use text_words::{Piece, words_of};

/// The text of a line that is UTF-8.
fn text_of(line: &[u8]) -> Option<&str>
    ensures text { IfSome result (λ text. (is_utf8 line.now ≡ true) × (text.now ≡ line.now)) }
    ensures none { IfNone result (is_utf8 line.now ≡ false) }
{
    match str::from_utf8(line) {
        Ok(text) => Some(text),
        Err(_) => None,
    }
}

/// The word of a line that is UTF-8 and has just one.
pub(crate) fn only_word(alloc: Global, line: &[u8]) -> Result<Option<&str>, Memory>
    ensures { IfOk result (λ word. option_copied word ≡ only (words_of_line line.now)) }
{
    let Some(text) = text_of(line) else {
        return Ok(None);
    };
    let pieces = words_of(alloc, text)?;
    if pieces.len() != 1 {
        return Ok(None);
    }
    Ok(Some(word_at(text, pieces[0])))
}

/// The words of a line that is UTF-8 and has just two.
pub(crate) fn only_two_words(alloc: Global, line: &[u8]) -> Result<Option<(&str, &str)>, Memory>
    ensures { IfOk result (λ two. MatchOption two (only_two (words_of_line line.now) ≡ None)
        (λ t. only_two (words_of_line line.now) ≡ Some (t.0.now, t.1.now))) }
{
    let Some(text) = text_of(line) else {
        return Ok(None);
    };
    let pieces = words_of(alloc, text)?;
    if pieces.len() != 2 {
        return Ok(None);
    }
    Ok(Some((word_at(text, pieces[0]), word_at(text, pieces[1]))))
}

/// The bytes of a piece.
fn word_at(text: &str, piece: Piece) -> &str
    requires { IsPieceOf text.now piece }
    ensures { result.now ≡ bytes_at text.now piece }
{
    &text[piece.from..piece.to]
}

/// The key of a word, as a string.
pub(crate) fn text_key(alloc: Global, word: &str) -> Result<String, Memory>
    ensures { IfOk result (λ text. string_bytes text ≡ key_of word.now) }
{
    Ok(key(alloc, word)?.into_string())
}
