//! Places of words, with the sentences and paragraphs in which they are.

ghost use Rattle.std.specs.Prelude.{◌≡◌};
ghost use Rattle.phrase_merges.specs.steps.Passing.{earlier, end_of, later, number_in, soonest, start_of};

use ft_base::{Hit, Unit};

/// The place of a word, and the numbers of its sentence and its paragraph.
#[derive(Clone, Copy)]
pub(crate) struct Position {
    pub(crate) word: u32,
    pub(crate) sentence: u32,
    pub(crate) paragraph: u32,
}

pub(crate) fn start_of(hit: &Hit) -> Position
    ensures { result ≡ start_of hit.now }
{
    Position {
        word: hit.from,
        sentence: hit.sent_from,
        paragraph: hit.para_from,
    }
}

pub(crate) fn end_of(hit: &Hit) -> Position
    ensures { result ≡ end_of hit.now }
{
    Position {
        word: hit.to,
        sentence: hit.sent_to,
        paragraph: hit.para_to,
    }
}

pub(crate) fn number_in(unit: Unit, position: Position) -> u32
    ensures { result ≡ number_in unit position }
{
    match unit {
        Unit::Words => position.word,
        Unit::Sentences => position.sentence,
        Unit::Paragraphs => position.paragraph,
    }
}

/// The later one, or the one that there is.
pub(crate) fn later(first: Option<Position>, second: Option<Position>) -> Option<Position>
    ensures { result ≡ later first second }
{
    match first {
        None => second,
        Some(a) => match second {
            None => first,
            Some(b) => if b.word <= a.word { first } else { second },
        },
    }
}

/// The earlier one, where there are both.
pub(crate) fn earlier(first: Option<Position>, second: Option<Position>) -> Option<Position>
    ensures { result ≡ earlier first second }
{
    match first {
        None => None,
        Some(a) => match second {
            None => None,
            Some(b) => if a.word <= b.word { first } else { second },
        },
    }
}

/// The earlier one, or the one that there is.
pub(crate) fn soonest(first: Option<Position>, second: Option<Position>) -> Option<Position>
    ensures { result ≡ soonest first second }
{
    match first {
        None => second,
        Some(a) => match second {
            None => first,
            Some(b) => if a.word <= b.word { first } else { second },
        },
    }
}
