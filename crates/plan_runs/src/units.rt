//! The sentences and the paragraphs of a document, by the numbers that its breaks give them.

use index_cursors::BreakView;
use window_merges::Units;

/// The sentences of a document.
#[derive(Clone, Copy)]
pub(crate) struct Sentences<'v> {
    pub(crate) breaks: BreakView<'v>,
}

impl<'v> Units for Sentences<'v> {
    ghost use Rattle.plan_kinds.specs.steps.RisingUnits.{started_rises};
    ghost use Rattle.index_cursors.specs.SpanHits.{started};

    ghost number = { λ units place. started units.breaks.breaks.now.sentences place };

    fn number_of(&self, place: u32) -> u32 {
        self.breaks.sentence_of(place)
    }

    ghost rises = { λ units first second h. started_rises units.breaks.breaks.now.sentences first second h };
}

/// The paragraphs of a document.
#[derive(Clone, Copy)]
pub(crate) struct Paragraphs<'v> {
    pub(crate) breaks: BreakView<'v>,
}

impl<'v> Units for Paragraphs<'v> {
    ghost use Rattle.plan_kinds.specs.steps.RisingUnits.{started_rises};
    ghost use Rattle.index_cursors.specs.SpanHits.{started};

    ghost number = { λ units place. started units.breaks.breaks.now.paragraphs place };

    fn number_of(&self, place: u32) -> u32 {
        self.breaks.paragraph_of(place)
    }

    ghost rises = { λ units first second h. started_rises units.breaks.breaks.now.paragraphs first second h };
}
