ghost use Rattle.std.specs.Prelude.{◌≡◌, ◌∷◌, ◌++◌, [], IfOk, MatchOption, Some, None, OnOk};
ghost use Rattle.std.specs.List.{slice_split};
ghost use Rattle.text_forms.specs.Forms.{key_of};
ghost use Rattle.thesaurus_file.specs.Lines.{is_bar, line_of, phrase_of, three, trimmed};
ghost use Rattle.text_words.specs.Pieces.{IsPieceOf, bytes_at};

use crate::link::Link;
use crate::phrase::Phrase;
use ft_base::{Bytes, Memory};
use std::alloc::Global;
use text_forms::key;
use text_lines::{skip_blanks, trim_line};
use text_words::{Piece, words_of};

/// What a line says: a phrase and where it leads. `None` where the line is bad.
pub(crate) fn parse_line(alloc: Global, line: &[u8]) -> Result<Option<(Phrase, Link)>, Memory>
    ensures { IfOk result (λ said. said ≡ line_of line.now) }
{
    let Ok(text) = str::from_utf8(line) else {
        return Ok(None);
    };
    let Some((relation, from, to)) = three_parts(text) else {
        return Ok(None);
    };
    let relation = trim_blanks(relation.as_bytes());
    let from = parse_phrase(alloc, from)?;
    let to = parse_phrase(alloc, to)?;
    if relation.is_empty() || from.is_empty() || to.is_empty() {
        return Ok(None);
    }
    let relation = Bytes::from_slice(alloc, relation)?;
    Ok(Some((from, Link { relation, to })))
}

/// The three parts of a text that has just two bars.
fn three_parts(text: &str) -> Option<(&str, &str, &str)>
    ensures { MatchOption result (three (slice_split is_bar text.now) ≡ None)
        (λ parts. three (slice_split is_bar text.now) ≡ Some (parts.0.now, parts.1.now, parts.2.now)) }
{
    let Some((first, rest)) = split_at_bar(text) else {
        return None;
    };
    let Some((second, third)) = split_at_bar(rest) else {
        return None;
    };
    if split_at_bar(third).is_some() {
        return None;
    }
    Some((first, second, third))
}

/// What stands before the first bar and what stands after it.
fn split_at_bar(text: &str) -> Option<(&str, &str)>
    ensures { MatchOption result (slice_split is_bar text.now ≡ text.now ∷ [])
        (λ parts. slice_split is_bar text.now ≡ parts.0.now ∷ slice_split is_bar parts.1.now) }
{
    text.split_once('|')
}

/// The text without the spaces and tabs at both ends.
fn trim_blanks(text: &[u8]) -> &[u8]
    ensures { result.now ≡ trimmed text.now }
{
    let text = &text[skip_blanks(text)..];
    if text.ends_with(b"\r") {
        // `trim_line` would drop it.
        return text;
    }
    trim_line(text)
}

/// The keys of a text's words.
fn parse_phrase(alloc: Global, text: &str) -> Result<Phrase, Memory>
    ensures { IfOk result (λ phrase. phrase ≡ phrase_of text.now) }
{
    let pieces = words_of(alloc, text)?;
    let mut phrase = Phrase::new(alloc);
    for piece in &pieces {
        push_word(alloc, &mut phrase, text, *piece)?;
    }
    Ok(phrase)
}

/// Puts the key of a word of the text at the phrase's end.
fn push_word(alloc: Global, phrase: &mut Phrase, text: &str, piece: Piece) -> Result<(), Memory>
    requires { IsPieceOf text.now piece }
    ensures { OnOk result (phrase.new ≡ phrase.old ++ key_of (bytes_at text.now piece) ∷ []) }
{
    let key = key(alloc, &text[piece.from..piece.to])?;
    phrase.push(alloc, key.as_str())
}
