//! Printing options.
#![tactic(auto, using(crate::proofs::Pages::put_all_append))]

ghost use Rattle.std.specs.Prelude.{◌≡◌, [], ◌∷◌, OnOk, codes};
ghost use Rattle.std.specs.List.{join_by};
ghost use Rattle.ft_syntax.specs.steps.Page.{put_all};
ghost use Rattle.ft_syntax.specs.OptionSymbols.{case_symbols, diacritics_symbols, switch_symbols, relationship_symbols, levels_symbols};
ghost use Rattle.ft_syntax.specs.OptionSymbols.{use_symbols, uses_symbols, thesaurus_symbols, source_symbols, further_term_symbols};
ghost use Rattle.ft_syntax.specs.OptionSymbols.{terms_symbols, stop_symbols, language_symbols, options_symbols};

use crate::print_words::{print_range, print_strings};
use crate::printer::Printer;
use ft_base::{
    Case, Line, Memory, Options, Range, StopChoice, StopSource, StopTerm, ThesaurusChoice,
    ThesaurusUse,
};

fn print_case(out: &mut Printer, case: Option<Case>) -> Result<(), Memory>
    ensures { OnOk result (out.new ≡ put_all out.old (case_symbols case)) }
{
    match case {
        None => Ok(()),
        Some(Case::Insensitive) => out.symbols(&["using", "case", "insensitive"]),
        Some(Case::Sensitive) => out.symbols(&["using", "case", "sensitive"]),
        Some(Case::Lower) => out.symbols(&["using", "lowercase"]),
        Some(Case::Upper) => out.symbols(&["using", "uppercase"]),
    }
}

fn print_diacritics(out: &mut Printer, sensitive: Option<bool>) -> Result<(), Memory>
    ensures { OnOk result (out.new ≡ put_all out.old (diacritics_symbols sensitive)) }
{
    match sensitive {
        None => Ok(()),
        Some(true) => out.symbols(&["using", "diacritics", "sensitive"]),
        Some(false) => out.symbols(&["using", "diacritics", "insensitive"]),
    }
}

/// An option that is on, or off with `no`.
fn print_switch(out: &mut Printer, name: &str, is_on: Option<bool>) -> Result<(), Memory>
    ensures { OnOk result (out.new ≡ put_all out.old (switch_symbols name.now is_on)) }
{
    match is_on {
        None => Ok(()),
        Some(true) => out.symbols(&["using", name]),
        Some(false) => out.symbols(&["using", "no", name]),
    }
}

fn print_relationship(out: &mut Printer, relationship: &Option<Line>) -> Result<(), Memory>
    ensures { OnOk result (out.new ≡ put_all out.old (relationship_symbols relationship.now)) }
{
    let Some(name) = relationship else {
        return Ok(());
    };
    out.symbol("relationship")?;
    out.string(name.as_str())
}

fn print_levels(out: &mut Printer, levels: Option<Range>) -> Result<(), Memory>
    ensures { OnOk result (out.new ≡ put_all out.old (levels_symbols levels)) }
{
    let Some(range) = levels else {
        return Ok(());
    };
    print_range(out, range)?;
    out.symbol("levels")?;
    Ok(())
}

fn print_use(out: &mut Printer, choice: &ThesaurusUse) -> Result<(), Memory>
    ensures { OnOk result (out.new ≡ put_all out.old (use_symbols choice.now)) }
{
    out.symbol("at")?;
    out.string(choice.name.as_str())?;
    print_relationship(out, &choice.relationship)?;
    print_levels(out, choice.levels)?;
    Ok(())
}

fn print_further_use(out: &mut Printer, choice: &ThesaurusUse) -> Result<(), Memory>
    ensures { OnOk result (out.new ≡ put_all out.old (codes "," ∷ use_symbols choice.now)) }
{
    out.symbol(",")?;
    print_use(out, choice)?;
    Ok(())
}

/// Choices of a thesaurus option with commas.
fn print_use_list(out: &mut Printer, uses: &[ThesaurusUse]) -> Result<(), Memory>
    ensures { OnOk result (out.new ≡ put_all out.old (join_by use_symbols (codes "," ∷ []) uses.now)) }
{
    let Some((first, rest)) = uses.split_first() else {
        return Ok(());
    };
    print_use(out, first)?;
    for choice in rest {
        print_further_use(out, choice)?;
    }
    Ok(())
}

fn print_uses(out: &mut Printer, uses: &[ThesaurusUse]) -> Result<(), Memory>
    ensures { OnOk result (out.new ≡ put_all out.old (uses_symbols uses.now)) }
{
    if uses.len() == 1 {
        return print_use(out, &uses[0]);
    }
    out.symbol("(")?;
    print_use_list(out, uses)?;
    out.symbol(")")?;
    Ok(())
}

fn print_thesaurus_choice(out: &mut Printer, choice: &ThesaurusChoice) -> Result<(), Memory>
    ensures { OnOk result (out.new ≡ put_all out.old (thesaurus_symbols (Some choice.now))) }
{
    match choice {
        ThesaurusChoice::No => out.symbols(&["using", "no", "thesaurus"]),
        ThesaurusChoice::Uses(uses) => {
            out.symbols(&["using", "thesaurus"])?;
            print_uses(out, uses.as_slice())?;
            Ok(())
        }
    }
}

fn print_thesaurus(out: &mut Printer, thesaurus: &Option<ThesaurusChoice>) -> Result<(), Memory>
    ensures { OnOk result (out.new ≡ put_all out.old (thesaurus_symbols thesaurus.now)) }
{
    match thesaurus {
        None => Ok(()),
        Some(choice) => print_thesaurus_choice(out, choice),
    }
}

fn print_source(out: &mut Printer, source: &StopSource) -> Result<(), Memory>
    ensures { OnOk result (out.new ≡ put_all out.old (source_symbols source.now)) }
{
    match source {
        StopSource::At(name) => {
            out.symbol("at")?;
            out.string(name.as_str())?;
        }
        StopSource::Written(texts) => {
            out.symbol("(")?;
            print_strings(out, texts.as_slice())?;
            out.symbol(")")?;
        }
    }
    Ok(())
}

fn print_further_term(out: &mut Printer, term: &StopTerm) -> Result<(), Memory>
    ensures { OnOk result (out.new ≡ put_all out.old (further_term_symbols term.now)) }
{
    out.symbol(if term.except { "except" } else { "union" })?;
    print_source(out, &term.source)?;
    Ok(())
}

fn print_terms(out: &mut Printer, terms: &[StopTerm]) -> Result<(), Memory>
    ensures { OnOk result (out.new ≡ put_all out.old (terms_symbols terms.now)) }
{
    let Some((first, rest)) = terms.split_first() else {
        return Ok(());
    };
    print_source(out, &first.source)?;
    for term in rest {
        print_further_term(out, term)?;
    }
    Ok(())
}

fn print_stop_choice(out: &mut Printer, choice: &StopChoice) -> Result<(), Memory>
    ensures { OnOk result (out.new ≡ put_all out.old (stop_symbols (Some choice.now))) }
{
    match choice {
        StopChoice::No => out.symbols(&["using", "no", "stop", "words"]),
        StopChoice::Sets(terms) => {
            out.symbols(&["using", "stop", "words"])?;
            print_terms(out, terms.as_slice())?;
            Ok(())
        }
    }
}

fn print_stop_words(out: &mut Printer, stop_words: &Option<StopChoice>) -> Result<(), Memory>
    ensures { OnOk result (out.new ≡ put_all out.old (stop_symbols stop_words.now)) }
{
    match stop_words {
        None => Ok(()),
        Some(choice) => print_stop_choice(out, choice),
    }
}

fn print_language(out: &mut Printer, language: &Option<Line>) -> Result<(), Memory>
    ensures { OnOk result (out.new ≡ put_all out.old (language_symbols language.now)) }
{
    let Some(name) = language else {
        return Ok(());
    };
    out.symbols(&["using", "language"])?;
    out.string(name.as_str())
}

/// The options that were given.
pub(crate) fn print_options(out: &mut Printer, options: &Options) -> Result<(), Memory>
    ensures { OnOk result (out.new ≡ put_all out.old (options_symbols options.now)) }
{
    print_case(out, options.case)?;
    print_diacritics(out, options.diacritics_sensitive)?;
    print_switch(out, "stemming", options.stemming)?;
    print_thesaurus(out, &options.thesaurus)?;
    print_stop_words(out, &options.stop_words)?;
    print_language(out, &options.language)?;
    print_switch(out, "wildcards", options.wildcards)?;
    Ok(())
}
