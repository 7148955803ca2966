//! Texts of documents with what is known of their words.

ghost use Rattle.std.specs.Prelude.{◌≡◌, length, IfOk};
ghost use Rattle.text_words.specs.Words.{words};
ghost use Rattle.tokenizer.specs.steps.TextsKnown.{Tells};

use ft_base::{Line, Memory};
use std::alloc::Global;
use std::marker::Model;
use std::rc::Rc;
use tokenizer::TextStarts;

/// A text, how many words it has, and where sentences and paragraphs start in it.
#[derive(Drop)]
struct KnownText {
    text: Line,
    starts: TextStarts,
    ghost tells: { Tells starts text },
}

/// A text of a document, whose words were found once. Copies share the text and what is known of it, and contracts see the
/// list of its UTF-8 bytes.
#[derive(Drop)]
pub struct SharedText {
    known: Rc<KnownText>,
}

impl Model for SharedText {
    ghost use Rattle.std.specs.Prelude.{List, ℕ};

    ghost Value = { List ℕ };

    ghost view = { λ inside. inside.known.value.text };
}

impl SharedText {
    /// The text in its memory, once its words are found.
    pub fn new(alloc: Global, text: Line) -> Result<SharedText, Memory>
        ensures { IfOk result (λ shared. shared ≡ text) }
    {
        let starts = TextStarts::read(alloc, text.as_str())?;
        SharedText::with_starts(alloc, text, starts)
    }

    /// The text in its memory, where its words were found.
    pub(crate) fn with_starts(
        alloc: Global,
        text: Line,
        starts: TextStarts,
    ) -> Result<SharedText, Memory>
        requires { Tells starts text }
        ensures { IfOk result (λ shared. shared ≡ text) }
    {
        let known = Rc::new(alloc, KnownText { text, starts })?;
        Ok(SharedText { known })
    }

    /// The same text once more; nothing of it is copied.
    pub fn share(&self) -> Result<SharedText, Memory>
        ensures { IfOk result (λ copy. copy ≡ self.now) }
    {
        let known = self.known.clone()?;
        Ok(SharedText { known })
    }

    /// The text.
    pub fn as_str(&self) -> &str
        ensures { result.now ≡ self.now }
    {
        self.known.text.as_str()
    }

    /// How many words it has.
    pub fn word_count(&self) -> usize
        ensures { result ≡ length (words self.now) }
    {
        self.known.starts.word_count() as usize
    }

    /// What is known of its words.
    pub(crate) fn starts(&self) -> &TextStarts
        ensures { Tells result.now self.now }
    {
        &self.known.starts
    }
}
