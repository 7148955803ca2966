ghost use Rattle.std.specs.Prelude.{◌≡◌, ◌≤◌, length, drop, not};
ghost use Rattle.std.specs.List.{position_or_len, prefix_len};
ghost use Rattle.ft_base.specs.Characters.{is_blank as blank, is_line_feed};
ghost use Rattle.text_lines.specs.Lines.{is_skipped as skipped, without_return, trimmed_start, trimmed_end, trimmed_line};

/// Where the first line feed stands, or the length.
pub fn line_end(bytes: &[u8]) -> usize
    ensures within { result ≤ length bytes.now }
    ensures first { result ≡ position_or_len is_line_feed bytes.now }
{
    let mut at = 0;
    while at < bytes.len() && bytes[at] != b'\n' {
        at += 1;
    }
    at
}

/// The line without a carriage return at its end.
pub fn drop_return(line: &[u8]) -> &[u8]
    ensures { result.now ≡ without_return line.now }
{
    if line.ends_with(b"\r") {
        &line[..line.len() - 1]
    } else {
        line
    }
}

/// A space or a tab.
fn is_blank(byte: u8) -> bool
    ensures { result ≡ blank byte }
{
    byte == b' ' || byte == b'\t'
}

/// How many blanks the text begins with.
pub fn skip_blanks(text: &[u8]) -> usize
    ensures within { result ≤ length text.now }
    ensures suffix { drop result text.now ≡ trimmed_start text.now }
{
    let mut at = 0;
    while at < text.len() && is_blank(text[at]) {
        at += 1;
    }
    at
}

/// The text without the blanks at its end.
fn trim_end(text: &[u8]) -> &[u8]
    ensures { result.now ≡ trimmed_end text.now }
{
    let mut end = text.len();
    while end > 0 && is_blank(text[end - 1]) {
        end -= 1;
    }
    &text[..end]
}

/// What the line says: without a carriage return at its end and the blanks at both ends.
pub fn trim_line(line: &[u8]) -> &[u8]
    ensures { result.now ≡ trimmed_line line.now }
{
    let text = drop_return(line);
    trim_end(&text[skip_blanks(text)..])
}

/// Whether the line says nothing or is a comment.
pub fn is_skipped(line: &[u8]) -> bool
    ensures { result ≡ skipped line.now }
{
    let text = trim_line(line);
    text.is_empty() || text.starts_with(b"#")
}

/// Where the text's first word ends.
pub fn word_end(text: &[u8]) -> usize
    ensures within { result ≤ length text.now }
    ensures first { result ≡ prefix_len (λ byte. not (blank byte)) text.now }
{
    let mut at = 0;
    while at < text.len() && !is_blank(text[at]) {
        at += 1;
    }
    at
}
