ghost use Rattle.std.specs.Prelude.{◌≡◌};
ghost use Rattle.ft_base.specs.Selection.{no_options};

use crate::{Items, Line, Lines, Range};

/// A case option (the standard's FTCaseOption).
#[derive(Clone, Copy, PartialEq, Eq)]
pub enum Case {
    /// `case insensitive`
    Insensitive,
    /// `case sensitive`
    Sensitive,
    /// `lowercase`
    Lower,
    /// `uppercase`
    Upper,
}

/// The match options that were written, at most one of each group (the standard's FTMatchOptions).
#[derive(Drop)]
pub struct Options {
    pub case: Option<Case>,
    pub diacritics_sensitive: Option<bool>,
    pub stemming: Option<bool>,
    pub thesaurus: Option<ThesaurusChoice>,
    pub stop_words: Option<StopChoice>,
    pub language: Option<Line>,
    pub wildcards: Option<bool>,
}

impl Options {
    /// No option at all.
    pub fn none() -> Options
        ensures { result ≡ no_options }
    {
        Options {
            case: None,
            diacritics_sensitive: None,
            stemming: None,
            thesaurus: None,
            stop_words: None,
            language: None,
            wildcards: None,
        }
    }
}

/// A stop word option (the standard's FTStopWordOption).
#[derive(Drop)]
pub enum StopChoice {
    /// `no stop words`
    No,
    /// `stop words`, with its terms in the order in which they are written
    Sets(Items<StopTerm>),
}

/// A term of a stop word option: words that are added to the set, or taken out of it.
#[derive(Drop)]
pub struct StopTerm {
    /// Whether `except` stands before it, and not `union`. The first term has neither.
    pub except: bool,
    pub source: StopSource,
}

/// Where the words of a term stand.
#[derive(Drop)]
pub enum StopSource {
    /// `at "NAME"`: the stop list of that name
    At(Line),
    /// `("a", "b")`: the words of these strings
    Written(Lines),
}

/// A thesaurus option (the standard's FTThesaurusOption).
#[derive(Drop)]
pub enum ThesaurusChoice {
    /// `no thesaurus`
    No,
    /// `thesaurus`, with its choices in the order in which they are written
    Uses(Items<ThesaurusUse>),
}

/// One choice of a thesaurus option (the standard's FTThesaurusID).
#[derive(Drop)]
pub struct ThesaurusUse {
    pub name: Line,
    pub relationship: Option<Line>,
    pub levels: Option<Range>,
}
