ghost use Rattle.std.specs.Prelude.{◌≡◌, ◌<◌, ◌-◌, ◌^◌};
ghost use Rattle.index_phrases.specs.steps.Numbers.{numbers_at};

use index_cursors::BreakView;

/// The numbers of the sentence and of the paragraph of a word.
#[derive(Clone, Copy)]
pub(crate) struct UnitNumbers {
    pub(crate) sentence: u32,
    pub(crate) paragraph: u32,
}

impl UnitNumbers {
    /// Those of the word at a position, as the document counts them.
    pub(crate) fn at(breaks: BreakView<'_>, position: u32) -> UnitNumbers
        requires { position < 2 ^ 32 - 1 }
        ensures { result ≡ numbers_at breaks.entry.breaks.now position }
    {
        UnitNumbers {
            sentence: breaks.sentence_of(position),
            paragraph: breaks.paragraph_of(position),
        }
    }
}
