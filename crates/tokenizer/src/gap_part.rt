ghost use Rattle.std.specs.Prelude.{◌≡◌};
ghost use Rattle.std.specs.Str.{chars};
ghost use Rattle.tokenizer.specs.steps.GapSteps.{after_characters, after_part};

use crate::gap::Gap;

/// What characters say of a gap, whatever stands before them.
#[derive(Clone, Copy)]
pub(crate) struct GapPart {
    /// What is known after them where nothing was seen before them.
    alone: Gap,
    /// The same where nothing but a line feed was.
    after_line_feed: Gap,
}

impl GapPart {
    /// No characters.
    pub(crate) fn new() -> GapPart
        ensures { (known : Gap) → after_part result known ≡ known }
    {
        let after_line_feed = Gap {
            after_line_feed: true,
            ..Gap::new()
        };
        GapPart {
            alone: Gap::new(),
            after_line_feed,
        }
    }

    /// Goes past more characters of the gap.
    pub(crate) fn pass_characters(&mut self, text: &str)
        ensures { (known : Gap) → after_part self.new known ≡ after_characters (after_part self.old known) (chars text.now) }
    {
        self.alone.pass_characters(text);
        self.after_line_feed.pass_characters(text);
    }

    /// What is known of a gap of which `known` was seen, after these characters.
    pub(crate) fn after(&self, known: Gap) -> Gap
        ensures { result ≡ after_part self.now known }
    {
        let seen = if known.after_line_feed {
            self.after_line_feed
        } else {
            self.alone
        };
        Gap {
            sentence_ends: seen.sentence_ends | known.sentence_ends,
            paragraph_ends: seen.paragraph_ends | known.paragraph_ends,
            after_line_feed: seen.after_line_feed,
        }
    }
}
