ghost use Rattle.std.specs.Prelude.{◌≡◌};
ghost use Rattle.ft_base.specs.Characters as chars;

/// Whether the character is one from `low` to `high`.
fn is_within(c: char, low: u32, high: u32) -> bool
    ensures { result ≡ chars.is_within c (low, high) }
{
    let code = c as u32;
    low <= code && code <= high
}

/// Whether the character may stand in a document at all (XML 1.0, production 2).
pub fn is_char(c: char) -> bool
    ensures { result ≡ chars.is_char c }
{
    is_within(c, 0x9, 0xA)
        | is_within(c, 0xD, 0xD)
        | is_within(c, 0x20, 0xD7FF)
        | is_within(c, 0xE000, 0xFFFD)
        | is_within(c, 0x1_0000, 0x10_FFFF)
}

/// Whether the character is white space (XML 1.0, production 3).
pub fn is_space(c: char) -> bool
    ensures { result ≡ chars.is_space c }
{
    is_within(c, 0x20, 0x20) | is_within(c, 0x9, 0xA) | is_within(c, 0xD, 0xD)
}

/// Whether a name may begin with the character (XML 1.0, production 4).
pub fn is_name_start(c: char) -> bool
    ensures { result ≡ chars.is_name_start c }
{
    if c.is_ascii() {
        return is_ascii_name_start(c);
    }
    is_ascii_name_start(c)
        | is_within(c, 0xC0, 0xD6)
        | is_within(c, 0xD8, 0xF6)
        | is_within(c, 0xF8, 0x2FF)
        | is_within(c, 0x370, 0x37D)
        | is_within(c, 0x37F, 0x1FFF)
        | is_within(c, 0x200C, 0x200D)
        | is_within(c, 0x2070, 0x218F)
        | is_within(c, 0x2C00, 0x2FEF)
        | is_within(c, 0x3001, 0xD7FF)
        | is_within(c, 0xF900, 0xFDCF)
        | is_within(c, 0xFDF0, 0xFFFD)
        | is_within(c, 0x1_0000, 0xE_FFFF)
}

/// Whether the character is one of the ASCII characters with which a name may begin.
fn is_ascii_name_start(c: char) -> bool
    ensures { result ≡ chars.is_ascii_name_start c }
{
    is_within(c, 0x61, 0x7A)
        | is_within(c, 0x41, 0x5A)
        | is_within(c, 0x3A, 0x3A)
        | is_within(c, 0x5F, 0x5F)
}

/// Whether a name may go on with the character (XML 1.0, production 4a).
pub fn is_name_char(c: char) -> bool
    ensures { result ≡ chars.is_name_char c }
{
    is_name_start(c)
        | is_within(c, 0x2D, 0x2E)
        | is_within(c, 0x30, 0x39)
        | is_within(c, 0xB7, 0xB7)
        | is_within(c, 0x300, 0x36F)
        | is_within(c, 0x203F, 0x2040)
}
