//! Options without a list.

ghost use Rattle.std.specs.Prelude.{◌≡◌, ◌≤◌, ◌<◌, ◌+◌, ◌^◌, ◌-◌, IfOk, Ok, codes, length};
ghost use Rattle.ft_base.specs.declared.options.StopChoice.TheVariants as Stop;
ghost use Rattle.ft_parser.specs.steps.State.{Answers};
ghost use Rattle.selection_grammar.specs.Keywords as keywords;
ghost use Rattle.selection_grammar.specs.steps.Reading.{reading};
ghost use Rattle.selection_grammar.specs.Shapes.{whole, nothing, text};
ghost use Rattle.selection_grammar.specs.declared.parsed.MatchOption.TheVariants as O;

use crate::heads::{is_word, text_at};
use crate::state::{Halt, Reader};
use ft_base::{Case, StopChoice, ThesaurusChoice};
use selection_grammar::{MatchOption, Placed, PlacedOption};

/// An option of one more keyword.
fn given(option: MatchOption, at: usize, next: usize) -> Result<(PlacedOption, usize), Halt>
    requires { next < 2 ^ 64 - 1 }
    ensures { result ≡ Ok (keywords.given at option, next + 1) }
{
    Ok((PlacedOption { at, option }, next + 1))
}

fn sensitivity(
    symbols: &[Placed],
    next: usize,
    at: usize,
    insensitive: MatchOption,
    sensitive: MatchOption,
) -> Result<(PlacedOption, usize), Halt>
    ensures value { Answers (λ o. o) result (reading (keywords.sensitivity at insensitive sensitive) symbols.now next) }
    ensures within { IfOk result (λ r. r.1 ≤ length symbols.now) }
{
    if is_word(symbols, next, "insensitive") {
        given(insensitive, at, next)
    } else if is_word(symbols, next, "sensitive") {
        given(sensitive, at, next)
    } else {
        Err(Halt::Stuck(next))
    }
}

fn no_stop_words(symbols: &[Placed], next: usize, at: usize) -> Result<(PlacedOption, usize), Halt>
    ensures value { Answers (λ o. o) result (reading (keywords.key (codes "words") (whole (keywords.given at (O.StopWords Stop.No)))) symbols.now next) }
    ensures within { IfOk result (λ r. r.1 ≤ length symbols.now) }
{
    if is_word(symbols, next, "words") {
        given(MatchOption::StopWords(StopChoice::No), at, next)
    } else {
        Err(Halt::Stuck(next))
    }
}

/// An option after `no`.
fn turned_off(symbols: &[Placed], next: usize, at: usize) -> Result<(PlacedOption, usize), Halt>
    ensures value { Answers (λ o. o) result (reading (keywords.turned_off at) symbols.now next) }
    ensures within { IfOk result (λ r. r.1 ≤ length symbols.now) }
{
    if is_word(symbols, next, "stemming") {
        given(MatchOption::Stemming(false), at, next)
    } else if is_word(symbols, next, "wildcards") {
        given(MatchOption::Wildcards(false), at, next)
    } else if is_word(symbols, next, "thesaurus") {
        given(MatchOption::Thesaurus(ThesaurusChoice::No), at, next)
    } else if is_word(symbols, next, "stop") {
        no_stop_words(symbols, next + 1, at)
    } else {
        Err(Halt::Stuck(next))
    }
}

fn language(reader: Reader<'_>, next: usize, at: usize) -> Result<(PlacedOption, usize), Halt>
    ensures value { Answers (λ o. o) result (reading (text (λ p name. whole (keywords.given at (O.Language name))) nothing) reader.entry.symbols.now next) }
    ensures within { IfOk result (λ r. r.1 ≤ length reader.entry.symbols.now) }
{
    match text_at(reader, next)? {
        Some(name) => given(MatchOption::Language(name), at, next),
        None => Err(Halt::Stuck(next)),
    }
}

/// An option after the `using` at that place.
pub(crate) fn plain_option(
    reader: Reader<'_>,
    next: usize,
    at: usize,
) -> Result<(PlacedOption, usize), Halt>
    ensures value { Answers (λ o. o) result (reading (keywords.plain_option at) reader.entry.symbols.now next) }
    ensures within { IfOk result (λ r. r.1 ≤ length reader.entry.symbols.now) }
{
    let symbols = reader.symbols;
    if is_word(symbols, next, "case") {
        sensitivity(
            symbols,
            next + 1,
            at,
            MatchOption::Case(Case::Insensitive),
            MatchOption::Case(Case::Sensitive),
        )
    } else if is_word(symbols, next, "lowercase") {
        given(MatchOption::Case(Case::Lower), at, next)
    } else if is_word(symbols, next, "uppercase") {
        given(MatchOption::Case(Case::Upper), at, next)
    } else if is_word(symbols, next, "diacritics") {
        sensitivity(
            symbols,
            next + 1,
            at,
            MatchOption::Diacritics(false),
            MatchOption::Diacritics(true),
        )
    } else if is_word(symbols, next, "stemming") {
        given(MatchOption::Stemming(true), at, next)
    } else if is_word(symbols, next, "wildcards") {
        given(MatchOption::Wildcards(true), at, next)
    } else if is_word(symbols, next, "language") {
        language(reader, next + 1, at)
    } else if is_word(symbols, next, "no") {
        turned_off(symbols, next + 1, at)
    } else {
        Err(Halt::Stuck(next))
    }
}
