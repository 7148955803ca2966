ghost use Rattle.std.specs.Prelude.{◌≡◌, ◌+◌, ◌<◌, ◌^◌, All, List, [], ℕ, length, IfOk, MatchOption, if◌then◌else◌};
ghost use Rattle.tokenizer.specs.Parts.{parts_of_text};
ghost use Rattle.tokenizer.specs.steps.Behind.{StandsIn};
ghost use Rattle.tokenizer.specs.steps.SegmentParts.{IsSegmentOf};
ghost use Rattle.unicode_segmentation.specs.Iter.{word_bound_indices_left};

use crate::behind::WordBefore;
use ft_base::Memory;
use text_words::is_word;
use unicode::segmentation::{UWordBoundIndices, UnicodeSegmentation};

/// A segment of a text between two word boundaries.
#[derive(Clone, Copy)]
pub(crate) struct Segment<'a> {
    pub(crate) text: &'a str,
    /// Whether it is a word.
    pub(crate) is_word: bool,
    /// The word directly before it.
    pub(crate) before: WordBefore,
}

/// A walk over the segments of a text.
#[derive(Drop)]
pub(crate) struct Segments<'a> {
    text: &'a str,
    segments: UWordBoundIndices<'a>,
    /// The word directly before those that are left.
    before: WordBefore,
    ghost short: { length text.now < 2 ^ 32 },
    ghost inside: { All (IsSegmentOf text.now) (word_bound_indices_left segments) },
    ghost before_stands: { StandsIn text.now before },
}

impl<'a> Segments<'a> {
    ghost use Rattle.tokenizer.specs.steps.SegmentsLeft.{Steps, parts_left};

    /// All segments of a text. `Memory` comes where the text has 4 GiB or more.
    pub(crate) fn new(text: &'a str) -> Result<Segments<'a>, Memory>
        ensures parts { IfOk result (λ left. (abbreviations : List (List ℕ)) → parts_left abbreviations left ≡ parts_of_text abbreviations text.now) }
        ensures text { IfOk result (λ left. left.text.now ≡ text.now) }
        ensures before { IfOk result (λ left. left.before ≡ record { from = 0; to = 0 }) }
    {
        if text.len() > 0xFFFF_FFFF {
            return Err(Memory);
        }
        Ok(Segments {
            text,
            segments: text.split_word_bound_indices(),
            before: WordBefore::none(),
        })
    }

    /// The next segment.
    pub(crate) fn next(&mut self) -> Option<Segment<'a>>
        ensures { MatchOption result ((abbreviations : List (List ℕ)) → parts_left abbreviations self.old ≡ []) (λ segment. Steps self.old segment self.new) }
    {
        let Some((from, text)) = self.segments.next() else {
            return None;
        };
        let segment = Segment {
            text,
            is_word: is_word(text),
            before: self.before,
        };
        self.before = word_at(&segment, from);
        Some(segment)
    }
}

/// The word that is a segment, which begins with that byte of the text; none where the segment is no word.
fn word_at(segment: &Segment<'_>, from: usize) -> WordBefore
    requires { from + length segment.now.text.now < 2 ^ 32 }
    ensures { result ≡ (if segment.now.is_word then record { from = from; to = from + length segment.now.text.now } else record { from = 0; to = 0 }) }
{
    if !segment.is_word {
        return WordBefore::none();
    }
    let to = from + segment.text.len();
    WordBefore {
        from: from as u32,
        to: to as u32,
    }
}
