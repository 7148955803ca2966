//! The forms of a word, and whether two words are the same.

ghost use Rattle.std.specs.Prelude.{◌≡◌, IfOk};
ghost use Rattle.match_options.specs.TokenTest as spec;
ghost use Rattle.match_options.specs.WordForms.{forms_of};
ghost use Rattle.match_options.specs.WordTests.{same_word};

use crate::form_choice::FormChoice;
use crate::word_forms::Forms;
use ft_base::{Case, Memory, Options};
use std::alloc::Global;
use text_forms::{exact, is_lower_only, is_upper_only, key, plain_case, plain_marks};

/// The forms of a word.
pub fn forms(alloc: Global, word: &str) -> Result<Forms, Memory>
    ensures { IfOk result (λ forms. forms ≡ forms_of word.now) }
{
    Ok(Forms {
        key: key(alloc, word)?,
        plain_case: plain_case(alloc, word)?,
        plain_marks: plain_marks(alloc, word)?,
        exact: exact(alloc, word)?,
        lower: is_lower_only(word),
        upper: is_upper_only(word),
    })
}

/// Whether a word of a text is the same as a word of a query under the options, without stemming.
pub fn same_token(options: &Options, query: &Forms, text: &Forms) -> bool
    ensures { result ≡ spec.same_token options.now query.now text.now }
{
    same_word(FormChoice::of(options), query, text)
}

/// The same under the options that choose the form.
pub(crate) fn same_word(choice: FormChoice, query: &Forms, text: &Forms) -> bool
    ensures { result ≡ same_word choice query.now text.now }
{
    query.key == text.key
        && same_form(choice.case, choice.diacritics_sensitive, query, text)
        && has_case(choice.case, text)
}

pub(crate) fn is_on(option: Option<bool>) -> bool
    ensures { result ≡ spec.is_on option }
{
    option.unwrap_or(false)
}

/// The case option, by default `case insensitive`.
pub(crate) fn case_of(options: &Options) -> Case
    ensures { result ≡ spec.case_of options.now.case }
{
    match options.case {
        None => Case::Insensitive,
        Some(case) => case,
    }
}

/// What `lowercase` and `uppercase` ask of the word of the text.
pub(crate) fn has_case(case: Case, text: &Forms) -> bool
    ensures { result ≡ spec.has_case case text.now }
{
    match case {
        Case::Insensitive => true,
        Case::Sensitive => true,
        Case::Lower => text.lower,
        Case::Upper => text.upper,
    }
}

/// What case and diacritics ask beside equal keys.
pub(crate) fn same_form(case: Case, diacritics_sensitive: bool, query: &Forms, text: &Forms) -> bool
    ensures { result ≡ spec.same_form case diacritics_sensitive query.now text.now }
{
    match (case, diacritics_sensitive) {
        (Case::Sensitive, true) => query.exact == text.exact,
        (Case::Sensitive, false) => query.plain_marks == text.plain_marks,
        (_, true) => query.plain_case == text.plain_case,
        (_, false) => true,
    }
}
