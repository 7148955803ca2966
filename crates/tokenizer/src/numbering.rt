ghost use Rattle.std.specs.Prelude.{◌≡◌, ◌+◌, ◌≤◌, ◌<◌, ◌^◌, ℕ, List, ◌∷◌};
ghost use Rattle.std.specs.Str.{chars};
ghost use Rattle.tokenizer.specs.Parts.{Part, word, gap_characters, gap_tag};
ghost use Rattle.tokenizer.specs.steps.GapSteps.{after_characters};
ghost use Rattle.tokenizer.specs.steps.Numbering.{after_word, both_passed, nothing_passed, tokens_left};
ghost use Rattle.tokenizer.specs.Tokens.{shifted, tokens_from};

use crate::gap::Gap;

/// The numbers of the last token's sentence and paragraph, and what is known of the gap after it.
#[derive(Clone, Copy)]
pub(crate) struct Numbering {
    pub(crate) sentence: u32,
    pub(crate) paragraph: u32,
    pub(crate) gap: Gap,
}

impl Numbering {
    /// Before the first token.
    pub(crate) fn new() -> Numbering
        ensures tokens { (rest : List Part) → tokens_left result rest ≡ tokens_from 1 1 rest }
        ensures sentence { result.sentence ≡ 0 }
        ensures paragraph { result.paragraph ≡ 0 }
    {
        Numbering {
            sentence: 0,
            paragraph: 0,
            gap: Gap::before_all(),
        }
    }

    /// Before a word, where nothing was seen.
    pub(crate) fn inside() -> Numbering
        ensures { result ≡ nothing_passed }
    {
        Numbering {
            sentence: 0,
            paragraph: 0,
            gap: Gap::new(),
        }
    }

    /// Goes past what this was counted in, which begins with the last token.
    pub(crate) fn pass_numbering(&mut self, inside: &Numbering)
        requires sentence_fits { self.old.sentence + inside.now.sentence < 2 ^ 32 }
        requires paragraph_fits { self.old.paragraph + inside.now.paragraph < 2 ^ 32 }
        ensures { self.new ≡ both_passed self.old inside.now }
    {
        self.sentence += inside.sentence;
        self.paragraph += inside.paragraph;
        self.gap = inside.gap;
    }

    /// Goes past characters that are in no word.
    pub(crate) fn pass_characters(&mut self, text: &str)
        ensures tokens { (rest : List Part) →
            tokens_left self.old (gap_characters text.now ∷ rest) ≡ tokens_left self.new rest }
        ensures sentence { self.new.sentence ≡ self.old.sentence }
        ensures paragraph { self.new.paragraph ≡ self.old.paragraph }
        ensures passed { self.new ≡ record self.old { gap = after_characters self.old.gap (chars text.now) } }
    {
        self.gap.pass_characters(text);
    }

    /// Goes past a tag of an element of this name.
    pub(crate) fn pass_tag(&mut self, name: &str)
        ensures tokens { (rest : List Part) →
            tokens_left self.old (gap_tag name.now ∷ rest) ≡ tokens_left self.new rest }
        ensures sentence { self.new.sentence ≡ self.old.sentence }
        ensures paragraph { self.new.paragraph ≡ self.old.paragraph }
    {
        self.gap.pass_tag(name);
    }

    /// Goes past a word, whose sentence and paragraph then have the new numbers.
    pub(crate) fn pass_word(&mut self)
        requires sentence_fits { self.old.sentence + 1 < 2 ^ 32 }
        requires paragraph_fits { self.old.paragraph + 1 < 2 ^ 32 }
        ensures tokens { (bytes : List ℕ) (rest : List Part) → tokens_left self.old (word bytes ∷ rest)
            ≡ record { word = bytes; sentence = self.new.sentence; paragraph = self.new.paragraph }
            ∷ tokens_left self.new rest }
        ensures sentence { self.new.sentence ≤ self.old.sentence + 1 }
        ensures paragraph { self.new.paragraph ≤ self.old.paragraph + 1 }
        ensures passed { self.new ≡ after_word self.old }
    {
        let paragraph_ends = self.gap.paragraph_ends;
        let sentence_ends = self.gap.sentence_ends | paragraph_ends;
        self.sentence = shifted(sentence_ends, self.sentence);
        self.paragraph = shifted(paragraph_ends, self.paragraph);
        self.gap = Gap::new();
    }
}

/// The next number, where a sentence or a paragraph ended.
fn shifted(ended: bool, number: u32) -> u32
    requires { number + 1 < 2 ^ 32 }
    ensures value { result ≡ shifted ended number }
    ensures most { result ≤ number + 1 }
{
    if ended { number + 1 } else { number }
}
