use crate::Range;
use crate::unit::TextUnit;

/// A positional filter (the standard's FTPosFilter).
#[derive(Clone, Copy, PartialEq, Eq)]
pub enum Filter {
    /// `ordered`
    Ordered,
    /// `window n units`
    Window(u32, TextUnit),
    /// `distance RANGE units`
    Distance(Range, TextUnit),
    /// `same sentence`
    SameSentence,
    /// `same paragraph`
    SameParagraph,
    /// `different sentence`
    DifferentSentence,
    /// `different paragraph`
    DifferentParagraph,
    /// `at start`
    AtStart,
    /// `at end`
    AtEnd,
    /// `entire content`
    EntireContent,
}
