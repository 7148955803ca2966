ghost use Rattle.std.specs.Prelude.{◌≡◌, ◌≤◌, length, drop};
ghost use Rattle.std.specs.List.{list_all, list_any};
ghost use Rattle.std.specs.Str.{chars};
ghost use Rattle.text_lines.specs.Lines.{trimmed_line, first_word, after_first_word};
ghost use Rattle.reply_lines.specs.Names.{is_bare_name, is_control_byte, is_name_byte, is_quoted_name};
ghost use Rattle.session_text.specs.Words.{is_one_word};

use ft_base::MAX_NAME_BYTES;
use text_lines::{skip_blanks, word_end};

/// The text's first word, and what stands after it and the blanks after it.
#[tactic(auto, using(crate::proofs::WordLemmas::word_boundary, crate::proofs::WordLemmas::rest_boundary))]
pub(crate) fn split_word(text: &str) -> (&str, &str)
    ensures word { result.0.now ≡ first_word text.now }
    ensures rest { result.1.now ≡ after_first_word text.now }
{
    let at = word_end(text.as_bytes());
    let suffix = &text[at..];
    (&text[..at], &suffix[skip_blanks(suffix.as_bytes())..])
}

/// Whether the text is exactly one word.
pub(crate) fn is_single_word(text: &str) -> bool
    ensures { result ≡ is_one_word text.now }
{
    let (_, rest) = split_word(text);
    !text.is_empty() && rest.is_empty()
}

/// Whether the text is a bare name: letters, digits, periods, low lines and hyphens, at least one and at most `MAX_NAME_BYTES`.
pub(crate) fn can_name(text: &str) -> bool
    ensures { result ≡ is_bare_name text.now }
{
    !text.is_empty() && text.len() <= MAX_NAME_BYTES && has_only_name_letters(text.as_bytes())
}

/// Whether each byte may stand in a name.
fn has_only_name_letters(bytes: &[u8]) -> bool
    ensures { result ≡ list_all is_name_byte bytes.now }
{
    for byte in bytes {
        if !is_name_letter(*byte) {
            return false;
        }
    }
    true
}

/// A letter, a digit, a period, a low line or a hyphen.
fn is_name_letter(byte: u8) -> bool
    ensures { result ≡ is_name_byte byte }
{
    byte.is_ascii_alphanumeric() || byte == b'.' || byte == b'_' || byte == b'-'
}

/// Whether the text is a name that may stand in quotation marks: any characters but controls of ASCII, at least one and at most as many
/// as a bare name may have.
pub(crate) fn can_quote(text: &str) -> bool
    ensures { result ≡ is_quoted_name text.now }
{
    !text.is_empty() && count_characters(text) <= MAX_NAME_BYTES && !has_control(text.as_bytes())
}

fn count_characters(text: &str) -> usize
    ensures { result ≡ length (chars text.now) }
{
    text.chars().count()
}

/// Whether a control of ASCII is among the bytes.
fn has_control(bytes: &[u8]) -> bool
    ensures { result ≡ list_any is_control_byte bytes.now }
{
    for byte in bytes {
        if is_control(*byte) {
            return true;
        }
    }
    false
}

/// U+0000 to U+001F, or U+007F.
fn is_control(byte: u8) -> bool
    ensures { result ≡ is_control_byte byte }
{
    byte <= 31 || byte == 127
}
