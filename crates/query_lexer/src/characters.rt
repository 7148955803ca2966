//! The classes of characters.

ghost use Rattle.std.specs.Prelude.{◌≡◌};
ghost use Rattle.ft_base.specs.Characters as base;
ghost use Rattle.query_lexer.specs.Symbols as spec;

/// Whether the character may stand between symbols.
pub(crate) fn is_blank(c: char) -> bool
    ensures { result ≡ base.is_blank c }
{
    c == ' ' || c == '\t'
}

/// Whether the character opens a string.
pub(crate) fn is_quote(c: char) -> bool
    ensures { result ≡ spec.is_quote c }
{
    c == '"' || c == '\''
}

pub(crate) fn is_slash(c: char) -> bool
    ensures { result ≡ spec.is_slash c }
{
    c == '/'
}
