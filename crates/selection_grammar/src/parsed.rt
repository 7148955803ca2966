use ft_base::{Case, Filter, Items, Line, Mode, Range, StopChoice, ThesaurusChoice};

/// A string of a value, with the place of its opening quote.
#[derive(Drop)]
pub struct PlacedString {
    pub at: usize,
    pub text: Line,
}

/// A match option (the standard's FTMatchOption).
#[derive(Drop)]
pub enum MatchOption {
    Case(Case),
    /// Whether diacritics count.
    Diacritics(bool),
    Stemming(bool),
    Thesaurus(ThesaurusChoice),
    StopWords(StopChoice),
    Language(Line),
    Wildcards(bool),
}

/// A match option, with the place of its `using`.
#[derive(Drop)]
pub struct PlacedOption {
    pub at: usize,
    pub option: MatchOption,
}

/// A range of times, with the place of its `occurs`.
#[derive(Clone, Copy, PartialEq, Eq)]
pub struct PlacedTimes {
    pub at: usize,
    pub range: Range,
}

/// Words of a selection as they were read.
#[derive(Drop)]
pub struct ParsedWords {
    pub strings: Items<PlacedString>,
    pub mode: Mode,
    pub times: Option<PlacedTimes>,
    pub options: Items<PlacedOption>,
}

/// A selection as it was read, with the places that its faults need. Parentheses without options leave no trace in it.
#[derive(Drop)]
pub enum Parsed {
    Words(ParsedWords),
    /// `ftor`, between two or more
    Or(Items<Parsed>),
    /// `ftand`, between two or more
    And(Items<Parsed>),
    /// `not in`
    MildNot(Box<Parsed>, Box<Parsed>),
    /// `ftnot`, with its place
    Not(usize, Box<Parsed>),
    Filtered(Box<Parsed>, Filter),
    /// A selection in parentheses with options, one or more
    With(Box<Parsed>, Items<PlacedOption>),
}
