use ft_base::{Items, Line};

/// A symbol of a query.
#[derive(Drop)]
pub enum Symbol {
    /// The longest run of name characters.
    Name(Line),
    /// A number; the one after the greatest stands for every number past it.
    Number(u32),
    /// The text of a string, its quotes taken away.
    Text(Line),
    Slash,
    DoubleSlash,
    OpenBracket,
    CloseBracket,
    OpenParenthesis,
    CloseParenthesis,
    OpenBrace,
    CloseBrace,
    Comma,
    At,
    Equals,
    Period,
    Star,
    VerticalBar,
}

/// A symbol with its place in the text.
#[derive(Drop)]
pub struct Placed {
    pub symbol: Symbol,
    /// The number of bytes before it.
    pub from: usize,
    /// The number of bytes before what stands after it.
    pub to: usize,
}

/// The symbols of a text, up to its first character that begins none.
#[derive(Drop)]
pub struct Symbols {
    pub placed: Items<Placed>,
    /// The place of that character, where there is one.
    pub bad: Option<usize>,
}
