//! Periods directly behind words: behind an abbreviation they end no sentence.

ghost use Rattle.std.specs.Prelude.{◌≡◌, ◌∷◌, ℕ, List, false, true, IfNone, IfOk, IfSome};
ghost use Rattle.tokenizer.specs.Parts.{without_period};
ghost use Rattle.tokenizer.specs.steps.Behind.{StandsIn, has_word, spares};

use ft_base::Memory;
use std::alloc::Global;
use text_forms::key;
use word_lists::KeySet;

/// The word that stands directly before characters of a text, by the bytes of the text from which and up to which it goes. Where the
/// two are the same, no word stands there.
#[derive(Clone, Copy)]
pub(crate) struct WordBefore {
    pub(crate) from: u32,
    pub(crate) to: u32,
}

impl WordBefore {
    /// No word.
    pub(crate) fn none() -> WordBefore
        ensures { result ≡ record { from = 0; to = 0 } }
    {
        WordBefore { from: 0, to: 0 }
    }

    /// Whether there is a word.
    pub(crate) fn is_some(&self) -> bool
        ensures { result ≡ has_word self.now }
    {
        self.from < self.to
    }

    /// What stands behind the period with which the characters begin, where they stand directly behind a word.
    pub(crate) fn behind_period<'a>(&self, characters: &'a str) -> Option<&'a str>
        ensures some { IfSome result (λ rest. characters.now ≡ 46 ∷ rest.now) }
        ensures word { IfSome result (λ _. has_word self.now ≡ true) }
        ensures none { IfNone result ((abbreviations : List (List ℕ)) (text : List ℕ) → without_period (spares abbreviations text self.now) characters.now ≡ characters.now) }
    {
        if !self.is_some() {
            return None;
        }
        characters.strip_prefix(".")
    }

    /// Whether there is a word in the text, and it is an abbreviation. Where there are no abbreviations, nothing of the text is looked at.
    pub(crate) fn is_abbreviation(
        &self,
        alloc: Global,
        text: &str,
        abbreviations: &KeySet,
    ) -> Result<bool, Memory>
        requires { StandsIn text.now self.now }
        ensures { IfOk result (λ is. is ≡ spares abbreviations.now text.now self.now) }
    {
        if abbreviations.is_empty() || !self.is_some() {
            return Ok(false);
        }
        let key = key(alloc, &text[self.from as usize..self.to as usize])?;
        Ok(abbreviations.holds(key.as_str()))
    }
}

/// Characters of a text without the period directly behind an abbreviation. No key is computed where there are no abbreviations, and none
/// where no period stands directly behind the word before them.
pub(crate) fn characters_behind<'a>(
    alloc: Global,
    text: &str,
    word: WordBefore,
    characters: &'a str,
    abbreviations: &KeySet,
) -> Result<&'a str, Memory>
    requires { StandsIn text.now word }
    ensures { IfOk result (λ left. left.now ≡ without_period (spares abbreviations.now text.now word) characters.now) }
{
    let Some(rest) = word.behind_period(characters) else {
        return Ok(characters);
    };
    if word.is_abbreviation(alloc, text, abbreviations)? {
        Ok(rest)
    } else {
        Ok(characters)
    }
}
