ghost use Rattle.std.specs.Prelude.{◌≡◌};
ghost use Rattle.session_text.specs.Words.{is_text};
ghost use Rattle.session_text.specs.Lines.{without_mark};

/// The bytes after a byte order mark.
pub(crate) fn skip_mark(bytes: &[u8]) -> &[u8]
    ensures { result.now ≡ without_mark bytes.now }
{
    if bytes.starts_with(b"\xEF\xBB\xBF") {
        &bytes[3..]
    } else {
        bytes
    }
}

/// Whether the bytes are this word.
pub(crate) fn is_word(bytes: &[u8], word: &str) -> bool
    ensures { result ≡ is_text bytes.now word.now }
{
    bytes == word.as_bytes()
}
