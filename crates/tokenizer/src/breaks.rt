ghost use Rattle.std.specs.Prelude.{◌≡◌, ◌+◌, ◌<◌, ◌^◌, ◌∷◌, ◌++◌, List, length, IfOk, OnOk};
ghost use Rattle.text_words.specs.Words.{words};
ghost use Rattle.tokenizer.specs.Parts.{Part, parts_of_text};
ghost use Rattle.tokenizer.specs.steps.Behind.{StandsIn};
ghost use Rattle.tokenizer.specs.steps.SegmentParts.{part_of, words_of_segment};
ghost use Rattle.tokenizer.specs.steps.StartsLeft.{sentences_in, paragraphs_in};
ghost use Rattle.tokenizer.specs.Tokens.{tokens, words_in, sentence_starts, paragraph_starts};

use crate::behind::characters_behind;
use crate::segments::{Segment, Segments};
use crate::starts::Starts;
use crate::walk::{Event, Walk};
use ft_base::{Breaks, Memory};
use plain_tree::PlainDoc;
use std::alloc::Global;
use word_lists::KeySet;

/// The places, counted from 1, of the tokens at which the document's sentences and paragraphs start. A period directly behind an
/// abbreviation ends no sentence.
pub fn breaks_of(alloc: Global, doc: &PlainDoc, abbreviations: &KeySet) -> Result<Breaks, Memory>
    requires { length (words_in doc.now) < 2 ^ 31 }
    ensures sentences { IfOk result (λ breaks. breaks.sentences ≡ sentence_starts (tokens abbreviations.now doc.now)) }
    ensures paragraphs { IfOk result (λ breaks. breaks.paragraphs ≡ paragraph_starts (tokens abbreviations.now doc.now)) }
{
    let mut starts = Starts::new(alloc);
    let mut walk = Walk::new(alloc, doc.root());
    while let Some(event) = walk.next()? {
        match event {
            Event::Tag(name) => starts.pass_tag(name),
            Event::Text(text) => pass_text(alloc, &mut starts, text, abbreviations)?,
        }
    }
    Ok(starts.into_breaks())
}

/// Goes past the words of a text, and what stands between them.
fn pass_text(
    alloc: Global,
    starts: &mut Starts,
    text: &str,
    abbreviations: &KeySet,
) -> Result<(), Memory>
    requires { starts.old.words + length (words text.now) < 2 ^ 32 }
    ensures sentences { OnOk result ((rest : List Part) →
        sentences_in starts.old (parts_of_text abbreviations.now text.now ++ rest) ≡ sentences_in starts.new rest) }
    ensures paragraphs { OnOk result ((rest : List Part) →
        paragraphs_in starts.old (parts_of_text abbreviations.now text.now ++ rest) ≡ paragraphs_in starts.new rest) }
    ensures words { OnOk result (starts.new.words ≡ starts.old.words + length (words text.now)) }
{
    let mut segments = Segments::new(text)?;
    while let Some(segment) = segments.next() {
        pass_segment(alloc, starts, text, &segment, abbreviations)?;
    }
    Ok(())
}

/// Goes past a segment of a text.
fn pass_segment(
    alloc: Global,
    starts: &mut Starts,
    text: &str,
    segment: &Segment<'_>,
    abbreviations: &KeySet,
) -> Result<(), Memory>
    requires fits { starts.old.words + length (words_of_segment segment.now) < 2 ^ 32 }
    requires stands { StandsIn text.now segment.now.before }
    ensures sentences { OnOk result ((rest : List Part) →
        sentences_in starts.old (part_of abbreviations.now text.now segment.now ∷ rest) ≡ sentences_in starts.new rest) }
    ensures paragraphs { OnOk result ((rest : List Part) →
        paragraphs_in starts.old (part_of abbreviations.now text.now segment.now ∷ rest) ≡ paragraphs_in starts.new rest) }
    ensures words { OnOk result (starts.new.words ≡ starts.old.words + length (words_of_segment segment.now)) }
{
    if segment.is_word {
        return starts.pass_word();
    }
    let characters = characters_behind(alloc, text, segment.before, segment.text, abbreviations)?;
    starts.pass_characters(characters);
    Ok(())
}
