use crate::{Lines, Options, Range};

/// How the strings of a value make phrases (the standard's FTAnyallOption).
#[derive(Clone, Copy, PartialEq, Eq)]
pub enum Mode {
    /// `any`: one of the strings
    Any,
    /// `any word`: one of the words
    AnyWord,
    /// `all`: all the strings
    All,
    /// `all words`: all the words
    AllWords,
    /// `phrase`: the strings one after the other
    Phrase,
}

/// Words of a selection, with what is written after them (the standard's FTWords and FTTimes).
#[derive(Drop)]
pub struct Words {
    pub values: Lines,
    pub mode: Mode,
    pub times: Option<Range>,
    pub options: Options,
}
