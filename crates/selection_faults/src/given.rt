//! The strings and options of a selection that was read, without their places.

ghost use Rattle.std.specs.Prelude.{◌≡◌, IfOk};
ghost use Rattle.selection_grammar.specs.Form as spec;
ghost use Rattle.selection_grammar.specs.Grammar as grammar;

use ft_base::{Items, Lines, Memory, Options};
use selection_grammar::{MatchOption, PlacedOption, PlacedString};
use std::alloc::Global;

pub(crate) fn texts_of(alloc: Global, strings: Items<PlacedString>) -> Result<Lines, Memory>
    ensures { IfOk result (λ texts. texts ≡ grammar.texts_of strings) }
{
    let mut texts = Items::new(alloc);
    for string in strings.into_vec() {
        texts.push(string.text)?;
    }
    Ok(texts)
}

/// The options, one after the other.
pub(crate) fn options_of(given: Items<PlacedOption>) -> Options
    ensures { result ≡ spec.options_of given }
{
    let mut options = Options::none();
    for placed in given.into_vec() {
        options = with_option(options, placed.option);
    }
    options
}

fn with_option(options: Options, option: MatchOption) -> Options
    ensures { result ≡ spec.with_option options option }
{
    match option {
        MatchOption::Case(case) => Options {
            case: Some(case),
            ..options
        },
        MatchOption::Diacritics(sensitive) => Options {
            diacritics_sensitive: Some(sensitive),
            ..options
        },
        MatchOption::Stemming(on) => Options {
            stemming: Some(on),
            ..options
        },
        MatchOption::Thesaurus(choice) => Options {
            thesaurus: Some(choice),
            ..options
        },
        MatchOption::StopWords(choice) => Options {
            stop_words: Some(choice),
            ..options
        },
        MatchOption::Language(name) => Options {
            language: Some(name),
            ..options
        },
        MatchOption::Wildcards(on) => Options {
            wildcards: Some(on),
            ..options
        },
    }
}
