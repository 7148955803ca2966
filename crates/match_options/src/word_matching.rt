//! What a word of a text has to be, for each word and pattern of a query.

ghost use Rattle.std.specs.Prelude.{◌≡◌, IfOk};
ghost use Rattle.match_options.specs.Items.{item};
ghost use Rattle.match_options.specs.Wildcards as wild;
ghost use Rattle.match_options.specs.WordTests as spec;

use crate::comparing::{forms, has_case, same_word};
use crate::form_choice::FormChoice;
use crate::item::QueryItem;
use crate::place_row::PlaceRow;
use crate::wild::Wild;
use crate::word_forms::Forms;
use ft_base::{Case, Line, Memory};
use std::alloc::Global;
use text_forms::key;

/// What a word of a text has to be.
#[derive(Drop)]
pub enum WordTest {
    /// Any word.
    Any,
    /// The same as a word of the query.
    Same(FormChoice, Forms),
    /// A word that a pattern covers.
    Covered(FormChoice, Wild),
    /// No word at all: a badly formed pattern.
    Never,
}

impl WordTest {
    /// The test of an item of a query.
    #[tactic(auto, unfolding(crate::specs::WordTests::passes, crate::specs::WordTests::item_passes))]
    pub fn of(alloc: Global, query: &QueryItem, choice: FormChoice) -> Result<WordTest, Memory>
        ensures { IfOk result (λ test. spec.passes test ≡ spec.item_passes choice (item query.now)) }
    {
        match query {
            QueryItem::Word(word) => Ok(WordTest::Same(choice, forms(alloc, word.as_str())?)),
            QueryItem::Pattern(pattern) => of_pattern(alloc, pattern, choice),
        }
    }

    /// Whether a word passes, given in the forms that the test looks at.
    #[tactic(auto, unfolding(crate::specs::WordTests::passes, crate::specs::WordTests::item_passes))]
    pub fn passes(&self, text: &Forms) -> bool
        ensures { result ≡ spec.passes self.now text.now }
    {
        match self {
            WordTest::Any => true,
            WordTest::Same(choice, query) => same_word(*choice, query, text),
            WordTest::Covered(choice, wild) => is_covered(*choice, wild, text),
            WordTest::Never => false,
        }
    }

    /// The same, where patterns are compared with words in a row of places that is kept from one word to the next.
    #[tactic(auto, unfolding(crate::specs::WordTests::passes, crate::specs::WordTests::item_passes))]
    pub fn passes_in(&self, text: &Forms, row: &mut PlaceRow) -> Result<bool, Memory>
        ensures { IfOk result (λ passed. passed ≡ spec.passes self.now text.now) }
    {
        match self {
            WordTest::Any => Ok(true),
            WordTest::Same(choice, query) => Ok(same_word(*choice, query, text)),
            WordTest::Covered(choice, wild) => is_covered_in(*choice, wild, text, row),
            WordTest::Never => Ok(false),
        }
    }
}

#[tactic(auto, unfolding(crate::specs::WordTests::passes, crate::specs::WordTests::item_passes))]
fn of_pattern(alloc: Global, pattern: &Line, choice: FormChoice) -> Result<WordTest, Memory>
    ensures { IfOk result (λ test. spec.passes test ≡ spec.pattern_passes choice (wild.pattern_in choice.case choice.diacritics_sensitive pattern.now)) }
{
    let wild = Wild::read_in(
        alloc,
        pattern.as_str(),
        choice.case,
        choice.diacritics_sensitive,
    )?;
    match wild {
        Some(wild) => Ok(WordTest::Covered(choice, wild)),
        None => Ok(WordTest::Never),
    }
}

fn is_covered(choice: FormChoice, wild: &Wild, text: &Forms) -> bool
    ensures { result ≡ spec.covered choice wild.now.atoms.items text.now }
{
    has_case(choice.case, text) && wild.accepts(form_in(choice, text).as_str())
}

fn is_covered_in(
    choice: FormChoice,
    wild: &Wild,
    text: &Forms,
    row: &mut PlaceRow,
) -> Result<bool, Memory>
    ensures { IfOk result (λ covered. covered ≡ spec.covered choice wild.now.atoms.items text.now) }
{
    if !has_case(choice.case, text) {
        return Ok(false);
    }
    wild.accepts_in(form_in(choice, text).as_str(), row)
}

fn form_in<'a>(choice: FormChoice, text: &'a Forms) -> &'a Line
    ensures { result.now ≡ spec.form_in choice.case choice.diacritics_sensitive text.now }
{
    match (choice.case, choice.diacritics_sensitive) {
        (Case::Sensitive, true) => &text.exact,
        (Case::Sensitive, false) => &text.plain_marks,
        (_, true) => &text.plain_case,
        (_, false) => &text.key,
    }
}

/// All forms of a word, or its key alone, which serves where every choice is by key.
pub fn forms_as(alloc: Global, all: bool, word: &str) -> Result<Forms, Memory>
    ensures { IfOk result (λ forms. forms ≡ spec.forms_as all word.now) }
{
    if all {
        return forms(alloc, word);
    }
    Ok(Forms {
        key: key(alloc, word)?,
        plain_case: Line::from_string(String::new(alloc)),
        plain_marks: Line::from_string(String::new(alloc)),
        exact: Line::from_string(String::new(alloc)),
        lower: false,
        upper: false,
    })
}
