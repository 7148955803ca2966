ghost use Rattle.std.specs.Prelude.{◌≡◌, ◌==◌, true, ◌+◌, ◌≤◌, ◌<◌, ◌^◌, ◌∷◌, ◌++◌, ℕ, List, [], length, Err, IfOk, OnErr, OnOk, if◌then◌else◌};
ghost use Rattle.std.specs.Option.{ForSome};
ghost use Rattle.ft_base.specs.Places.{last_place};
ghost use Rattle.text_words.specs.Words.{words};
ghost use Rattle.tokenizer.specs.Parts.{Part, word, gap_characters, gap_tag, parts_of_text};
ghost use Rattle.tokenizer.specs.Tokens.{tokens_from, sentence_starts, paragraph_starts};

use crate::numbering::Numbering;
use crate::text_starts::TextRead;
use crate::tokens::TokenFault;
use ft_base::{Breaks, Memory, Places};
use std::alloc::Global;
use word_lists::KeySet;

/// The places at which sentences and paragraphs start, as far as a document was seen, and how many words were. Whoever walks
/// over a document hands it the tags and the texts, in the order in which they are written.
#[derive(Drop)]
pub struct Starts {
    pub(crate) breaks: Breaks,
    pub(crate) last: Numbering,
    pub(crate) words: u32,
    ghost sentences_after: { ForSome (last_place breaks.sentences) (λ place. place ≤ words) },
    ghost paragraphs_after: { ForSome (last_place breaks.paragraphs) (λ place. place ≤ words) },
    ghost sentences_few: { last.sentence ≤ words },
    ghost paragraphs_few: { last.paragraph ≤ words },
}

impl Starts {
    ghost use Rattle.std.specs.Str.{chars};
    ghost use Rattle.tokenizer.specs.steps.Begun.{Begun};
    ghost use Rattle.tokenizer.specs.steps.GapSteps.{after_characters, with_period_if};
    ghost use Rattle.tokenizer.specs.steps.Numbering.{after_word, nothing_passed};
    ghost use Rattle.tokenizer.specs.steps.StartsLeft.{words_seen, sentences_in, paragraphs_in};
    ghost use Rattle.tokenizer.specs.steps.TextsKnown.{Tells};

    /// Before the document.
    pub fn new(alloc: Global) -> Starts
        ensures sentences { (rest : List Part) →
            sentences_in result rest ≡ sentence_starts (tokens_from 1 1 rest) }
        ensures paragraphs { (rest : List Part) →
            paragraphs_in result rest ≡ paragraph_starts (tokens_from 1 1 rest) }
        ensures words { words_seen result ≡ 0 }
    {
        Starts {
            breaks: Breaks {
                sentences: Places::new(alloc),
                paragraphs: Places::new(alloc),
            },
            last: Numbering::new(),
            words: 0,
        }
    }

    /// Before the first word of a text, where no sentence ends.
    pub(crate) fn inside(alloc: Global) -> Starts
        ensures last { result.last ≡ nothing_passed }
        ensures sentences { result.breaks.sentences ≡ [] }
        ensures paragraphs { result.breaks.paragraphs ≡ [] }
        ensures words { result.words ≡ 0 }
    {
        Starts {
            breaks: Breaks {
                sentences: Places::new(alloc),
                paragraphs: Places::new(alloc),
            },
            last: Numbering::inside(),
            words: 0,
        }
    }

    /// Goes past characters that are in no word.
    pub(crate) fn pass_characters(&mut self, text: &str)
        ensures sentences { (rest : List Part) →
            sentences_in self.old (gap_characters text.now ∷ rest) ≡ sentences_in self.new rest }
        ensures paragraphs { (rest : List Part) →
            paragraphs_in self.old (gap_characters text.now ∷ rest) ≡ paragraphs_in self.new rest }
        ensures words { self.new.words ≡ self.old.words }
        ensures last { self.new.last ≡ record self.old.last { gap = after_characters self.old.last.gap (chars text.now) } }
        ensures breaks { self.new.breaks ≡ self.old.breaks }
    {
        self.last.pass_characters(text);
    }

    /// Goes past a period, where one stands there.
    pub(crate) fn pass_period_if(&mut self, stands: bool)
        ensures last { self.new.last ≡ record self.old.last { gap = with_period_if stands self.old.last.gap } }
        ensures breaks { self.new.breaks ≡ self.old.breaks }
        ensures words { self.new.words ≡ self.old.words }
        ensures begun { Begun self.old → (stands ≡ true → 0 < self.old.words) → Begun self.new }
    {
        self.last.gap = self.last.gap.with_period_if(stands);
    }

    /// Goes past a tag of an element of this name.
    pub fn pass_tag(&mut self, name: &str)
        ensures sentences { (rest : List Part) →
            sentences_in self.old (gap_tag name.now ∷ rest) ≡ sentences_in self.new rest }
        ensures paragraphs { (rest : List Part) →
            paragraphs_in self.old (gap_tag name.now ∷ rest) ≡ paragraphs_in self.new rest }
        ensures words { words_seen self.new ≡ words_seen self.old }
    {
        self.last.pass_tag(name);
    }

    /// Reads a text, and goes past it; a period directly behind an abbreviation ends no sentence. `Tokens` comes where more than
    /// `most` words stand in what was seen with this text; no more than that many are made.
    pub fn pass_text(
        &mut self,
        alloc: Global,
        text: &str,
        abbreviations: &KeySet,
        most: u32,
    ) -> Result<TextRead, TokenFault>
        requires few { words_seen self.old ≤ most }
        requires countable { most < 2 ^ 31 }
        ensures words { IfOk result (λ read. read.words ≡ words text.now) }
        ensures tells { IfOk result (λ read. Tells read.starts text.now) }
        ensures counted { OnOk result (words_seen self.new ≡ words_seen self.old + length (words text.now)) }
        ensures few { words_seen self.new ≤ most }
        ensures full { result ≡ Err TokenFault.Tokens → most < words_seen self.old + length (words text.now) }
        ensures sentences { OnOk result ((rest : List Part) →
            sentences_in self.old (parts_of_text abbreviations.now text.now ++ rest) ≡ sentences_in self.new rest) }
        ensures paragraphs { OnOk result ((rest : List Part) →
            paragraphs_in self.old (parts_of_text abbreviations.now text.now ++ rest) ≡ paragraphs_in self.new rest) }
    {
        let read = TextRead::read(alloc, text, most - self.words)?;
        match self.pass_known(alloc, text, &read.starts, abbreviations, most) {
            Ok(()) => Ok(read),
            Err(fault) => {
                drop(read);
                Err(fault)
            }
        }
    }

    /// Goes past a word.
    pub(crate) fn pass_word(&mut self) -> Result<(), Memory>
        requires { self.old.words + 1 < 2 ^ 32 }
        ensures sentences { OnOk result ((bytes : List ℕ) (rest : List Part) →
            sentences_in self.old (word bytes ∷ rest) ≡ sentences_in self.new rest) }
        ensures paragraphs { OnOk result ((bytes : List ℕ) (rest : List Part) →
            paragraphs_in self.old (word bytes ∷ rest) ≡ paragraphs_in self.new rest) }
        ensures words { self.new.words ≡ self.old.words + 1 }
        ensures last { self.new.last ≡ after_word self.old.last }
        ensures begun { Begun self.old → Begun self.new }
        ensures sentence_places { OnOk result (self.new.breaks.sentences ≡ self.old.breaks.sentences
            ++ (if self.new.last.sentence == self.old.last.sentence then [] else self.new.words ∷ [])) }
        ensures sentences_kept { OnErr result (self.new.breaks.sentences ≡ self.old.breaks.sentences) }
        ensures paragraph_places { OnOk result (self.new.breaks.paragraphs ≡ self.old.breaks.paragraphs
            ++ (if self.new.last.paragraph == self.old.last.paragraph then [] else self.new.words ∷ [])) }
    {
        let before = self.last;
        self.words += 1;
        self.last.pass_word();
        let (sentence, paragraph) = (self.last.sentence, self.last.paragraph);
        push_start(
            &mut self.breaks.paragraphs,
            self.words,
            before.paragraph,
            paragraph,
        )?;
        push_start(
            &mut self.breaks.sentences,
            self.words,
            before.sentence,
            sentence,
        )?;
        Ok(())
    }

    /// The places, where the document ends here.
    pub fn into_breaks(self) -> Breaks
        ensures sentences { result.sentences ≡ sentences_in self [] }
        ensures paragraphs { result.paragraphs ≡ paragraphs_in self [] }
    {
        self.breaks
    }
}

/// Puts the place of a token to the end, where its number isn't that of the token before.
fn push_start(places: &mut Places, place: u32, before: u32, number: u32) -> Result<(), Memory>
    requires { ForSome (last_place places.old) (λ last. last < place) }
    ensures ok { OnOk result (places.new ≡ places.old ++ (if number == before then [] else place ∷ [])) }
    ensures err { OnErr result (places.new ≡ places.old) }
    ensures after { ForSome (last_place places.new) (λ last. last ≤ place) }
{
    if number == before {
        return Ok(());
    }
    places.push(place)?;
    Ok(())
}
