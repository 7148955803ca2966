/// Why a query's path or selection is not read. A place counts the bytes before it, from 0.
///
/// The first three kinds are found while the symbols are read, and the first of them counts. The others are found in a selection
/// that has none of those.
#[derive(Clone, Copy, Debug, PartialEq, Eq)]
pub enum QueryFault {
    /// The symbols before the place begin a query, and with the symbol there they begin none.
    Syntax { at: usize },
    /// A parenthesis, a bracket or a filter stands inside too many others.
    Deep { at: usize },
    /// The number is greater than one in a query may be.
    Number { at: usize },
    /// With those of the string there the selection has more phrases than it may have.
    Phrases { at: usize },
    /// There is an option of the same group before.
    OptionTwice { at: usize },
    /// The string holds a pattern that is badly formed.
    BadWildcard { at: usize },
    /// `ftnot` or `occurs` stands inside an operand of `not in`.
    MildNotExclude { at: usize },
    /// `ftnot` inside the operand of another `ftnot`, or `occurs`, stands inside a selection with a filter.
    InsideFilter { at: usize },
    Memory,
}

/// Why a stop list, a dictionary of stems or a thesaurus is not read.
#[derive(Clone, Copy, PartialEq, Eq)]
pub enum ListFault {
    /// The line of that number, counted from 1, is the first that is none of such a list.
    BadLine { line: usize },
    Memory,
}
