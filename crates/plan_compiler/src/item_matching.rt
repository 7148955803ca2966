//! What a word of a text has to be for an item of a query.

ghost use Rattle.std.specs.Prelude.{◌≡◌, ◌&&◌, ℕ, List, IfOk, IfSome, IsFalse, true, bytes_eq};
ghost use Rattle.text_forms.specs.Forms.{key_of};
ghost use Rattle.match_options.specs.TokenTest as token;
ghost use Rattle.match_options.specs.WordTests as tests;
ghost use Rattle.match_options.specs.declared.word_forms.Forms.{Forms};
ghost use Rattle.plan_compiler.specs.ItemTests as spec;
ghost use Rattle.plan_compiler.specs.TextWords.{stem_as, word_as};

use crate::lists::Lists;
use crate::looks::Looks;
use crate::text_word::TextWord;
use ft_base::{Case, Line, Memory};
use match_options::{FormChoice, Forms, PlaceRow, Wild, WordTest};

/// What a word of a text has to be.
#[derive(Drop)]
pub enum ItemTest {
    /// Any word.
    Any,
    /// A word that passes by its forms.
    ByForms(WordTest),
    /// A word with the stem, in the case that is asked for.
    ByStem(Line, Case),
}

impl ItemTest {
    /// Whether a word passes. Patterns are compared with words in a row of places that is kept from one word to the next.
    #[tactic(auto, unfolding(crate::specs::ItemTests::passes))]
    pub fn passes_in(&self, word: &TextWord, row: &mut PlaceRow) -> Result<bool, Memory>
        ensures { IfOk result (λ passed. passed ≡ spec.passes self.now word.now) }
    {
        match self {
            ItemTest::Any => Ok(true),
            ItemTest::ByForms(test) => test.passes_in(&word.forms, row),
            ItemTest::ByStem(stem, case) => Ok(has_stem(stem, *case, word)),
        }
    }

    /// What `passes_in` says of each word with this key, where the key tells: of a pattern that asks for no case and no marks, and of a
    /// stem in any case. `None` where more of a word is looked at.
    #[tactic(auto, unfolding(crate::specs::ItemTests::passes))]
    pub fn passes_key(
        &self,
        looks: Looks,
        lists: &Lists,
        key: &str,
        row: &mut PlaceRow,
    ) -> Result<Option<bool>, Memory>
        ensures { IfOk result (λ found. IfSome found (λ passed. (word : List ℕ) → key_of word ≡ key.now
            → passed ≡ spec.passes self.now (word_as looks lists.now.stems word))) }
    {
        match self {
            ItemTest::Any => Ok(None),
            ItemTest::ByForms(test) => covers_key(test, key, row),
            ItemTest::ByStem(stem, case) => Ok(stem_of_key(stem, *case, looks, lists, key)),
        }
    }
}

#[tactic(auto, unfolding(match_options::specs::WordTests::passes))]
fn covers_key(test: &WordTest, key: &str, row: &mut PlaceRow) -> Result<Option<bool>, Memory>
    ensures { IfOk result (λ found. IfSome found (λ passed. (forms : Forms) → forms.key ≡ key.now → passed ≡ tests.passes test.now forms)) }
{
    match test {
        WordTest::Any => Ok(None),
        WordTest::Same(_choice, _query) => Ok(None),
        WordTest::Covered(choice, wild) => pattern_covers(*choice, wild, key, row),
        WordTest::Never => Ok(None),
    }
}

fn pattern_covers(
    choice: FormChoice,
    wild: &Wild,
    key: &str,
    row: &mut PlaceRow,
) -> Result<Option<bool>, Memory>
    ensures { IfOk result (λ found. IfSome found (λ passed. (forms : Forms) → forms.key ≡ key.now
        → passed ≡ tests.covered choice wild.now.atoms.items forms)) }
{
    if !choice.is_by_key() {
        return Ok(None);
    }
    Ok(Some(wild.accepts_in(key, row)?))
}

fn stem_of_key(stem: &Line, case: Case, looks: Looks, lists: &Lists, key: &str) -> Option<bool>
    ensures { IfSome result (λ passed. (word : List ℕ) → key_of word ≡ key.now
        → passed ≡ (bytes_eq stem.now (stem_as looks.stems lists.now.stems (key_of word)) && token.has_case case (tests.forms_as looks.all_forms word))) }
{
    if !looks.stems || asks_case(case) {
        return None;
    }
    Some(stem.as_str() == lists.stem(key))
}

/// Whether the case decides which words of a text have a stem.
fn asks_case(case: Case) -> bool
    ensures { IsFalse result → (forms : Forms) → token.has_case case forms ≡ true }
{
    match case {
        Case::Insensitive => false,
        Case::Sensitive => false,
        Case::Lower => true,
        Case::Upper => true,
    }
}

/// Whether a word has the stem, in the case that is asked for.
fn has_stem(stem: &Line, case: Case, word: &TextWord) -> bool
    ensures { result ≡ (bytes_eq stem.now word.now.stem && token.has_case case word.now.forms) }
{
    stem.as_str() == word.stem.as_str() && has_case(case, &word.forms)
}

/// What `lowercase` and `uppercase` ask of the word of the text.
fn has_case(case: Case, text: &Forms) -> bool
    ensures { result ≡ token.has_case case text.now }
{
    match case {
        Case::Insensitive => true,
        Case::Sensitive => true,
        Case::Lower => text.lower,
        Case::Upper => text.upper,
    }
}
