//! What is known of a text wherever it stands, so that whoever goes past it once more finds no word anew.

ghost use Rattle.std.specs.Prelude.{◌≡◌, ◌+◌, ◌≤◌, ◌<◌, ◌^◌, ◌∷◌, ◌++◌, true, ℕ, List, [], All, length, map, not, get_or, Err, IfOk, OnOk, if◌then◌else◌};
ghost use Rattle.std.specs.Option.{ForSome};
ghost use Rattle.ft_base.specs.Places.{last_place};
ghost use Rattle.text_words.specs.Words.{words};
ghost use Rattle.tokenizer.specs.Parts.{Part, gap_characters, parts_of_text, without_period, word};
ghost use Rattle.tokenizer.specs.steps.Begun.{Begun, after_begun, places_begun};
ghost use Rattle.tokenizer.specs.steps.Behind.{StandsIn, has_word, spares};
ghost use Rattle.tokenizer.specs.steps.GapSteps.{after_part, sentence_ended, with_period_if};
ghost use Rattle.tokenizer.specs.steps.Numbering.{paragraph_ends, sentence_ends};
ghost use Rattle.tokenizer.specs.steps.SegmentParts.{part_of, words_of_segment};

use crate::behind::WordBefore;
use crate::gap::Gap;
use crate::gap_part::GapPart;
use crate::numbering::Numbering;
use crate::segments::{Segment, Segments};
use crate::starts::Starts;
use crate::tokens::TokenFault;
use ft_base::{Memory, Places};
use std::alloc::Global;
use text_list::TextList;
use word_lists::KeySet;

/// How many words a text may have.
const MAX_WORDS: u32 = 2_000_000_000;

/// How many words a text has, and where sentences and paragraphs start in it, whatever the abbreviations are.
#[derive(Drop)]
pub struct TextStarts {
    /// The characters before the first word; all of them, where there is no word.
    before: GapPart,
    /// What was seen from the first word on, where no sentence ends before it, and no word is an abbreviation; of the gap after the last
    /// word, what was seen without a period directly behind that word.
    after: Starts,
    /// For each start of a sentence in there, the word before it, where only a period directly behind that word makes the start.
    by_period: Vec<WordBefore>,
    /// The last word, where a period stands directly behind it.
    last_period: WordBefore,
    ghost begun: { Begun after },
    ghost told: { length after.breaks.sentences ≤ length by_period.items },
    ghost behind_word: { has_word last_period ≡ true → 0 < after.words },
}

impl TextStarts {
    ghost use Rattle.tokenizer.specs.steps.TextsKnown.{AtWord, IsBehind, Reads, Tells, WordsStandIn, gap_under, sentences_under, words_known};

    /// Nothing of a text.
    fn new(alloc: Global) -> TextStarts
        ensures reads { (text : List ℕ) → Reads text result (λ abbreviations. parts_of_text abbreviations text) }
        ensures words { words_known result ≡ 0 }
    {
        TextStarts {
            before: GapPart::new(),
            after: Starts::inside(alloc),
            by_period: Vec::new(alloc),
            last_period: WordBefore::none(),
        }
    }

    /// What is known of a text. `Memory` comes as well where it has two thousand million words, or 4 GiB.
    pub fn read(alloc: Global, text: &str) -> Result<TextStarts, Memory>
        ensures { IfOk result (λ known. Tells known text.now) }
    {
        let mut known = TextStarts::new(alloc);
        let mut segments = Segments::new(text)?;
        while let Some(segment) = segments.next() {
            match known.pass_segment(&segment, MAX_WORDS) {
                Ok(()) => {}
                Err(_) => return Err(Memory),
            }
        }
        Ok(known)
    }

    /// How many words the text has.
    pub fn word_count(&self) -> u32
        ensures { result ≡ words_known self.now }
    {
        self.after.words
    }

    /// Goes past a segment. `Tokens` comes where it is a word, and that many were seen.
    fn pass_segment(&mut self, segment: &Segment<'_>, most: u32) -> Result<(), TokenFault>
        requires few { words_known self.old ≤ most }
        requires countable { most < 2 ^ 31 }
        requires behind { IsBehind segment.now.before self.old }
        ensures reads { OnOk result ((text : List ℕ) (left : List (List ℕ) → List Part) → StandsIn text segment.now.before
            → Reads text self.old (λ abbreviations. part_of abbreviations text segment.now ∷ left abbreviations) → Reads text self.new left) }
        ensures at_word { OnOk result (segment.now.is_word ≡ true → AtWord self.new) }
        ensures counted { OnOk result (words_known self.new ≡ words_known self.old + length (words_of_segment segment.now)) }
        ensures few { words_known self.new ≤ most }
        ensures full { result ≡ Err TokenFault.Tokens → most < words_known self.old + length (words_of_segment segment.now) }
    {
        if !segment.is_word {
            self.pass_characters(segment.before, segment.text);
            return Ok(());
        }
        if self.after.words >= most {
            return Err(TokenFault::Tokens);
        }
        self.pass_word()?;
        Ok(())
    }

    /// Goes past characters that are in no word, and may stand directly behind one.
    fn pass_characters(&mut self, word: WordBefore, characters: &str)
        requires { IsBehind word self.old }
        ensures reads { (text : List ℕ) (left : List (List ℕ) → List Part) → StandsIn text word
            → Reads text self.old (λ abbreviations. gap_characters (without_period (spares abbreviations text word) characters.now) ∷ left abbreviations)
            → Reads text self.new left }
        ensures words { words_known self.new ≡ words_known self.old }
    {
        let Some(rest) = word.behind_period(characters) else {
            self.pass_apart(characters);
            return;
        };
        self.last_period = word;
        self.after.pass_characters(rest);
    }

    /// Goes past characters of which none is a period directly behind a word.
    fn pass_apart(&mut self, characters: &str)
        ensures reads { (text : List ℕ) (left : List (List ℕ) → List Part)
            → Reads text self.old (λ abbreviations. gap_characters characters.now ∷ left abbreviations) → Reads text self.new left }
        ensures words { words_known self.new ≡ words_known self.old }
    {
        if self.after.words == 0 {
            self.before.pass_characters(characters);
        } else {
            self.after.pass_characters(characters);
        }
    }

    /// Goes past a word.
    fn pass_word(&mut self) -> Result<(), Memory>
        requires { words_known self.old + 1 < 2 ^ 32 }
        ensures reads { OnOk result ((text segment : List ℕ) (left : List (List ℕ) → List Part)
            → Reads text self.old (λ abbreviations. word segment ∷ left abbreviations) → Reads text self.new left) }
        ensures at_word { OnOk result (AtWord self.new) }
        ensures counted { OnOk result (words_known self.new ≡ words_known self.old + 1) }
        ensures few { words_known self.new ≤ words_known self.old + 1 }
    {
        let word = self.last_period;
        push_word_before(&mut self.by_period, word, self.after.last.gap)?;
        self.last_period = WordBefore::none();
        self.after.pass_period_if(word.is_some());
        self.after.pass_word()?;
        Ok(())
    }

    /// What is known of the gap at the text's end.
    fn gap(&self, alloc: Global, text: &str, abbreviations: &KeySet) -> Result<Gap, Memory>
        requires { WordsStandIn text.now self.now }
        ensures { IfOk result (λ gap. gap ≡ gap_under abbreviations.now text.now self.now) }
    {
        let word = self.last_period;
        let spared = word.is_abbreviation(alloc, text, abbreviations)?;
        Ok(self.after.last.gap.with_period_if(word.is_some() & !spared))
    }

    /// Whether a sentence starts at the place of that number, counted from 0.
    fn starts_sentence(
        &self,
        alloc: Global,
        text: &str,
        number: usize,
        abbreviations: &KeySet,
    ) -> Result<bool, Memory>
        requires stand { WordsStandIn text.now self.now }
        requires number { number < length self.now.by_period.items }
        ensures { IfOk result (λ is. is ≡ not (spares abbreviations.now text.now (get_or self.now.by_period.items number (record { from = 0; to = 0 })))) }
    {
        let word = self.by_period[number];
        Ok(!word.is_abbreviation(alloc, text, abbreviations)?)
    }

    /// Puts the places at which sentences start to the end, where they count from after a place, and says how many they are.
    fn push_sentences(
        &self,
        alloc: Global,
        text: &str,
        places: &mut Places,
        before: u32,
        abbreviations: &KeySet,
    ) -> Result<u32, Memory>
        requires stand { WordsStandIn text.now self.now }
        requires after { ForSome (last_place places.old) (λ last. last ≤ before + 1) }
        requires few { before + words_known self.now < 2 ^ 32 }
        ensures ok { OnOk result (places.new ≡ places.old ++ map (λ place. before + place) (sentences_under abbreviations.now text.now self.now)) }
        ensures count { IfOk result (λ count. count ≡ length (sentences_under abbreviations.now text.now self.now)) }
        ensures most { (most : ℕ) → ForSome (last_place places.old) (λ last. last ≤ most)
            → before + words_known self.now ≤ most → ForSome (last_place places.new) (λ last. last ≤ most) }
    {
        let starts = self.after.breaks.sentences.as_slice();
        let mut count = 0;
        for number in 0..starts.len() {
            let is_start = self.starts_sentence(alloc, text, number, abbreviations)?;
            if is_start {
                places.push(before + starts[number])?;
                count += 1;
            }
        }
        Ok(count)
    }
}

/// Puts the word before a start of a sentence to the end, where a sentence ends in the gap: the word behind which a period stands
/// directly, if only that period ends the sentence, and else none. `gap` is what else is known of the gap.
fn push_word_before(
    by_period: &mut Vec<WordBefore>,
    word: WordBefore,
    gap: Gap,
) -> Result<(), Memory>
    ensures ok { OnOk result (by_period.new.items ≡ by_period.old.items ++ (if sentence_ended (with_period_if (has_word word) gap)
        then (if sentence_ended gap then record { from = 0; to = 0 } else word) ∷ [] else [])) }
    ensures kept { length by_period.old.items ≤ length by_period.new.items }
{
    if gap.ends_sentence() {
        by_period.push(WordBefore::none())?;
    } else if word.is_some() {
        by_period.push(word)?;
    }
    Ok(())
}

/// A text that was read: its words in order, and what is known of it.
#[derive(Drop)]
pub struct TextRead {
    pub words: TextList,
    pub starts: TextStarts,
}

impl TextRead {
    ghost use Rattle.tokenizer.specs.steps.TextsKnown.{Tells};

    /// Reads a text. `Tokens` comes where it has more than `most` words; no more than that many are made. `Memory` comes as well where
    /// it has 4 GiB.
    pub fn read(alloc: Global, text: &str, most: u32) -> Result<TextRead, TokenFault>
        requires countable { most < 2 ^ 31 }
        ensures words { IfOk result (λ read. read.words ≡ words text.now) }
        ensures tells { IfOk result (λ read. Tells read.starts text.now) }
        ensures few { OnOk result (length (words text.now) ≤ most) }
        ensures full { result ≡ Err TokenFault.Tokens → most < length (words text.now) }
    {
        let mut words = TextList::with_capacity(alloc, text.len())?;
        let mut starts = TextStarts::new(alloc);
        let mut segments = Segments::new(text)?;
        while let Some(segment) = segments.next() {
            starts.pass_segment(&segment, most)?;
            push_word(&mut words, &segment)?;
        }
        Ok(TextRead { words, starts })
    }
}

/// Puts a segment to the end, where it is a word.
fn push_word(words: &mut TextList, segment: &Segment<'_>) -> Result<(), Memory>
    ensures { OnOk result (words.new ≡ words.old ++ words_of_segment segment.now) }
{
    if !segment.is_word {
        return Ok(());
    }
    words.push(segment.text)
}

impl Starts {
    ghost use Rattle.tokenizer.specs.steps.StartsLeft.{words_seen, sentences_in, paragraphs_in};
    ghost use Rattle.tokenizer.specs.steps.TextsKnown.{Tells, WordsStandIn, known_under, sentences_under, words_known};

    /// Goes past a text of which this is known. None of its characters is looked at but those of words whose keys are asked, and nothing
    /// of it where there are no abbreviations. `Tokens` comes where more than `most` words stand in what was seen with this text.
    pub fn pass_known(
        &mut self,
        alloc: Global,
        text: &str,
        known: &TextStarts,
        abbreviations: &KeySet,
        most: u32,
    ) -> Result<(), TokenFault>
        requires tells { Tells known.now text.now }
        requires few { words_seen self.old ≤ most }
        requires countable { most < 2 ^ 31 }
        ensures counted { OnOk result (words_seen self.new ≡ words_seen self.old + words_known known.now) }
        ensures few { words_seen self.new ≤ most }
        ensures full { result ≡ Err TokenFault.Tokens → most < words_seen self.old + words_known known.now }
        ensures sentences { OnOk result ((rest : List Part) →
            sentences_in self.old (parts_of_text abbreviations.now text.now ++ rest) ≡ sentences_in self.new rest) }
        ensures paragraphs { OnOk result ((rest : List Part) →
            paragraphs_in self.old (parts_of_text abbreviations.now text.now ++ rest) ≡ paragraphs_in self.new rest) }
    {
        if known.after.words > most - self.words {
            return Err(TokenFault::Tokens);
        }
        self.pass_part(&known.before);
        if known.after.words > 0 {
            self.pass_begun(alloc, text, known, abbreviations)?;
        }
        Ok(())
    }

    /// Goes past characters that are in no word.
    fn pass_part(&mut self, part: &GapPart)
        ensures last { self.new.last ≡ record self.old.last { gap = after_part part.now self.old.last.gap } }
        ensures breaks { self.new.breaks ≡ self.old.breaks }
        ensures words { self.new.words ≡ self.old.words }
    {
        self.last.gap = part.after(self.last.gap);
    }

    /// Goes past what was seen from the first word of a text on.
    fn pass_begun(
        &mut self,
        alloc: Global,
        text: &str,
        known: &TextStarts,
        abbreviations: &KeySet,
    ) -> Result<(), Memory>
        requires stand { WordsStandIn text.now known.now }
        requires some { 0 < words_known known.now }
        requires few { self.old.words + words_known known.now < 2 ^ 31 }
        ensures words { self.new.words ≤ self.old.words + words_known known.now }
        ensures counted { OnOk result (self.new.words ≡ self.old.words + words_known known.now) }
        ensures last { OnOk result (self.new.last ≡ after_begun (words_known known.now) (known_under abbreviations.now text.now known.now).inside self.old.last) }
        ensures sentences { OnOk result (self.new.breaks.sentences ≡ self.old.breaks.sentences
            ++ places_begun (words_known known.now) (sentences_under abbreviations.now text.now known.now) (sentence_ends self.old.last) self.old.words) }
        ensures paragraphs { OnOk result (self.new.breaks.paragraphs ≡ self.old.breaks.paragraphs
            ++ places_begun (words_known known.now) known.now.after.breaks.paragraphs (paragraph_ends self.old.last) self.old.words) }
    {
        let before = self.words;
        let gap = known.gap(alloc, text, abbreviations)?;
        self.pass_word()?;
        self.words = before + known.after.words;
        let sentences = known.push_sentences(
            alloc,
            text,
            &mut self.breaks.sentences,
            before,
            abbreviations,
        )?;
        push_places(
            &mut self.breaks.paragraphs,
            before,
            &known.after.breaks.paragraphs,
        )?;
        self.last.pass_numbering(&Numbering {
            sentence: sentences,
            paragraph: known.after.last.paragraph,
            gap,
        });
        Ok(())
    }
}

/// Puts places to the end that count from after a place.
fn push_places(places: &mut Places, before: u32, added: &Places) -> Result<(), Memory>
    requires after { ForSome (last_place places.old) (λ last. last ≤ before + 1) }
    requires inside { All (λ place. 1 < place) added.now }
    requires few { ForSome (last_place added.now) (λ last. before + last < 2 ^ 32) }
    ensures ok { OnOk result (places.new ≡ places.old ++ map (λ place. before + place) added.now) }
    ensures most { (most : ℕ) → ForSome (last_place places.old) (λ last. last ≤ most)
        → ForSome (last_place added.now) (λ last. before + last ≤ most) → ForSome (last_place places.new) (λ last. last ≤ most) }
{
    for place in added.as_slice() {
        places.push(before + *place)?;
    }
    Ok(())
}
