use ft_base::Line;
use selection_grammar::Symbol;

/// A symbol at the front of a text, and the number of its characters.
#[derive(Drop)]
pub(crate) struct Lexeme {
    pub(crate) symbol: Symbol,
    pub(crate) size: usize,
}

/// The text of a string, and the number of its characters with the closing quote.
#[derive(Drop)]
pub(crate) struct Quoted {
    pub(crate) text: Line,
    pub(crate) size: usize,
}

/// Where one step of the reader leads.
#[derive(Clone, Copy)]
pub(crate) enum Turn {
    /// To the character of that number, from 0, which begins at the place.
    Passed(usize, usize),
    /// No symbol begins here.
    Bad,
}
