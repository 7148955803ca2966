ghost use Rattle.std.specs.Prelude.{◌≡◌, false, true};
ghost use Rattle.std.specs.Str.{chars};
ghost use Rattle.tokenizer.specs.steps.GapSteps.{after_character, after_characters, after_tag, sentence_ended, with_period_if};

use crate::blocks::is_block_element;

/// What is known of the gap after a word, as far as it was seen.
#[derive(Clone, Copy)]
pub(crate) struct Gap {
    /// A mark that ends sentences was seen.
    pub(crate) sentence_ends: bool,
    /// A blank line or a tag of a block element was seen.
    pub(crate) paragraph_ends: bool,
    /// After the last line feed only blanks were seen.
    pub(crate) after_line_feed: bool,
}

impl Gap {
    /// A gap of which nothing was seen.
    pub(crate) fn new() -> Gap
        ensures { result ≡ record { sentence_ends = false; paragraph_ends = false; after_line_feed = false } }
    {
        Gap {
            sentence_ends: false,
            paragraph_ends: false,
            after_line_feed: false,
        }
    }

    /// What stands before the first word, as if a paragraph ended in it.
    pub(crate) fn before_all() -> Gap
        ensures { result ≡ record { sentence_ends = true; paragraph_ends = true; after_line_feed = false } }
    {
        Gap {
            sentence_ends: true,
            paragraph_ends: true,
            after_line_feed: false,
        }
    }

    /// Goes past characters of the gap. All that is asked of them is ASCII, so their bytes are looked at.
    pub(crate) fn pass_characters(&mut self, text: &str)
        ensures { self.new ≡ after_characters self.old (chars text.now) }
    {
        for byte in text.as_bytes() {
            self.pass_byte(*byte);
        }
    }

    /// Goes past a tag of an element of this name.
    pub(crate) fn pass_tag(&mut self, name: &str)
        ensures { self.new ≡ after_tag self.old name.now }
    {
        if !self.paragraph_ends && is_block_element(name) {
            self.paragraph_ends = true;
        }
    }

    /// The same gap, in which a period was seen as well, where one stands there.
    pub(crate) fn with_period_if(self, stands: bool) -> Gap
        ensures { result ≡ with_period_if stands self }
    {
        Gap {
            sentence_ends: self.sentence_ends | stands,
            ..self
        }
    }

    /// Whether what was seen ends a sentence.
    pub(crate) fn ends_sentence(&self) -> bool
        ensures { result ≡ sentence_ended self.now }
    {
        self.sentence_ends | self.paragraph_ends
    }

    fn pass_byte(&mut self, byte: u8)
        ensures { self.new ≡ after_character self.old byte }
    {
        match byte {
            b'\n' => {
                self.paragraph_ends |= self.after_line_feed;
                self.after_line_feed = true;
            }
            b' ' | b'\t' => {}
            b'.' | b'!' | b'?' => {
                self.sentence_ends = true;
                self.after_line_feed = false;
            }
            _ => self.after_line_feed = false,
        }
    }
}
