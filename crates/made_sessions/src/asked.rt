//! The words of a call that asks for a made session, and what is written of the replies to one.

ghost use Rattle.std.specs.Prelude.{◌≡◌, ◌≤◌, IfSome, map, string_bytes};
ghost use Rattle.std.specs.Fmt.{decimal};
ghost use Rattle.std.specs.Str.{bytes_eq};
ghost use Rattle.ft_base.specs.Limits.{max_documents};
ghost use Rattle.made_sessions.specs.Asked as spec;

use ft_base::MAX_DOCUMENTS;
use itoa::Buffer;
use text_lines::line_end;

/// Whether the word is the decimal of a number.
fn is_decimal(number: u32, word: &str) -> bool
    ensures { result ≡ bytes_eq (decimal number) word.now }
{
    let mut digits = Buffer::new();
    digits.format(number) == word
}

/// Whether a number is from 1 to as many documents as a session may have, and the word is its decimal.
fn is_count(number: u32, word: &str) -> bool
    ensures { result ≡ spec.is_count number word.now }
{
    1 <= number && number <= MAX_DOCUMENTS as u32 && is_decimal(number, word)
}

/// The number that the word is: a decimal without leading zeros, from 1 to as many documents as a session may have.
fn count_in(word: &str) -> Option<u32>
    ensures { result ≡ spec.count_in word.now }
{
    match word.parse::<u32>() {
        Ok(count) if is_count(count, word) => Some(count),
        _ => None,
    }
}

/// For a session of how many documents the words of a call ask: `--make` and a number after it, or `--make=` and the number in one word.
pub fn asked_count(words: &[String]) -> Option<u32>
    ensures count { result ≡ spec.asked_count (map string_bytes words.now) }
    ensures within { IfSome result (λ count. (1 ≤ count) × (count ≤ max_documents)) }
{
    match words {
        [word] => match word.strip_prefix("--make=") {
            Some(number) => count_in(number),
            None => None,
        },
        [word, number] if word.as_str() == "--make" => count_in(number),
        _ => None,
    }
}

/// What is written of the text of a reply to a made session: its first line where it begins with `=`, and else nothing.
pub fn short(text: &[u8]) -> &[u8]
    ensures { result.now ≡ spec.short text.now }
{
    if !text.starts_with(b"=") {
        return &text[..0];
    }
    let end = line_end(text);
    if end == text.len() {
        return text;
    }
    &text[..end + 1]
}
