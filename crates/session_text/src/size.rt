//! The length of a block, as its line tells it.

ghost use Rattle.std.specs.Prelude.{◌≡◌, ◌≤◌, IfSome};
ghost use Rattle.std.specs.Fmt.{decimal};
ghost use Rattle.std.specs.Str.{bytes_eq};
ghost use Rattle.ft_base.specs.Limits.{max_session_bytes};
ghost use Rattle.session_text.specs.SizedBlocks as spec;

use ft_base::MAX_SESSION_BYTES;
use itoa::Buffer;

/// Whether the word is the decimal of a number.
fn is_decimal(number: u32, word: &str) -> bool
    ensures { result ≡ bytes_eq (decimal number) word.now }
{
    let mut digits = Buffer::new();
    digits.format(number) == word
}

/// Whether the word is the decimal of a number, which is no greater than a session may have bytes.
fn is_size(number: u32, word: &str) -> bool
    ensures { result ≡ spec.is_size number word.now }
{
    number <= MAX_SESSION_BYTES as u32 && is_decimal(number, word)
}

/// The length that the word tells, in decimal without leading zeros.
pub(crate) fn size_of(word: &str) -> Option<usize>
    ensures size { result ≡ spec.size_in word.now }
    ensures within { IfSome result (λ size. size ≤ max_session_bytes) }
{
    match word.parse::<u32>() {
        Ok(size) if is_size(size, word) => Some(size as usize),
        _ => None,
    }
}
