use crate::Selections;
use ft_base::{Filter, Options, Words};

/// A selection (the standard's FTSelection). Parentheses without options leave no trace in it.
#[derive(Drop)]
pub enum Selection {
    /// Words, with their mode, their range of times and their options (FTWords, FTTimes).
    Words(Words),
    /// `ftor` (FTOr).
    Or(Selections),
    /// `ftand` (FTAnd).
    And(Selections),
    /// `not in` (FTMildNot).
    MildNot(Box<Selection>, Box<Selection>),
    /// `ftnot` (FTUnaryNot).
    Not(Box<Selection>),
    /// A selection with a positional filter (FTPosFilter).
    Filtered(Box<Selection>, Filter),
    /// A selection in parentheses with options (FTPrimaryWithOptions).
    With(Box<Selection>, Options),
}
