//! The numbers of words with their options.

ghost use Rattle.std.specs.Prelude.{◌≡◌, ◌++◌, OnOk};
ghost use Rattle.ft_rewriter.specs.Code.{list_code, option_code, case_code, use_code, thesaurus_code, source_code, term_code, stop_code, lists_code};
ghost use Rattle.ft_rewriter.specs.Code.{mode_code, numbers, options_code, words_code};

use crate::numbers::{
    put_empty, put_flag, put_name, put_node, put_number, put_switch, put_text, put_texts, put_times,
};
use ft_base::{
    Case, Items, Memory, Mode, Options, StopChoice, StopSource, StopTerm, StopTerms,
    ThesaurusChoice, ThesaurusUse, ThesaurusUses, Words,
};

fn put_case_number(out: &mut Items<u32>, case: Case) -> Result<(), Memory>
    ensures { OnOk result (out.new ≡ out.old ++ numbers (case_code case)) }
{
    match case {
        Case::Insensitive => put_number(out, 0),
        Case::Sensitive => put_number(out, 1),
        Case::Lower => put_number(out, 2),
        Case::Upper => put_number(out, 3),
    }
}

fn put_case(out: &mut Items<u32>, case: Option<Case>) -> Result<(), Memory>
    ensures { OnOk result (out.new ≡ out.old ++ numbers (option_code case_code case)) }
{
    let Some(case) = case else {
        return put_empty(out);
    };
    put_node(out, 0)?;
    put_case_number(out, case)?;
    put_empty(out)
}

fn put_mode(out: &mut Items<u32>, mode: Mode) -> Result<(), Memory>
    ensures { OnOk result (out.new ≡ out.old ++ numbers (mode_code mode)) }
{
    match mode {
        Mode::Any => put_number(out, 0),
        Mode::AnyWord => put_number(out, 1),
        Mode::All => put_number(out, 2),
        Mode::AllWords => put_number(out, 3),
        Mode::Phrase => put_number(out, 4),
    }
}

fn put_use(out: &mut Items<u32>, choice: &ThesaurusUse) -> Result<(), Memory>
    ensures { OnOk result (out.new ≡ out.old ++ numbers (use_code choice.now)) }
{
    put_node(out, 0)?;
    put_text(out, &choice.name)?;
    put_node(out, 0)?;
    put_name(out, &choice.relationship)?;
    put_times(out, choice.levels)
}

fn put_uses(out: &mut Items<u32>, uses: &ThesaurusUses) -> Result<(), Memory>
    ensures { OnOk result (out.new ≡ out.old ++ numbers (list_code use_code uses.now)) }
{
    for choice in uses.as_slice() {
        put_node(out, 0)?;
        put_use(out, choice)?;
    }
    put_empty(out)
}

fn put_thesaurus_choice(out: &mut Items<u32>, choice: &ThesaurusChoice) -> Result<(), Memory>
    ensures { OnOk result (out.new ≡ out.old ++ numbers (thesaurus_code choice.now)) }
{
    match choice {
        ThesaurusChoice::No => put_empty(out),
        ThesaurusChoice::Uses(uses) => {
            put_node(out, 0)?;
            put_uses(out, uses)?;
            put_empty(out)
        }
    }
}

fn put_thesaurus(out: &mut Items<u32>, thesaurus: &Option<ThesaurusChoice>) -> Result<(), Memory>
    ensures { OnOk result (out.new ≡ out.old ++ numbers (option_code thesaurus_code thesaurus.now)) }
{
    let Some(choice) = thesaurus else {
        return put_empty(out);
    };
    put_node(out, 0)?;
    put_thesaurus_choice(out, choice)?;
    put_empty(out)
}

fn put_source(out: &mut Items<u32>, source: &StopSource) -> Result<(), Memory>
    ensures { OnOk result (out.new ≡ out.old ++ numbers (source_code source.now)) }
{
    match source {
        StopSource::At(name) => {
            put_node(out, 0)?;
            put_text(out, name)?;
            put_empty(out)
        }
        StopSource::Written(texts) => {
            put_node(out, 1)?;
            put_texts(out, texts)?;
            put_empty(out)
        }
    }
}

fn put_term(out: &mut Items<u32>, term: &StopTerm) -> Result<(), Memory>
    ensures { OnOk result (out.new ≡ out.old ++ numbers (term_code term.now)) }
{
    put_node(out, 0)?;
    put_flag(out, term.except)?;
    put_source(out, &term.source)
}

fn put_terms(out: &mut Items<u32>, terms: &StopTerms) -> Result<(), Memory>
    ensures { OnOk result (out.new ≡ out.old ++ numbers (list_code term_code terms.now)) }
{
    for term in terms.as_slice() {
        put_node(out, 0)?;
        put_term(out, term)?;
    }
    put_empty(out)
}

fn put_stop_choice(out: &mut Items<u32>, choice: &StopChoice) -> Result<(), Memory>
    ensures { OnOk result (out.new ≡ out.old ++ numbers (stop_code choice.now)) }
{
    match choice {
        StopChoice::No => put_empty(out),
        StopChoice::Sets(terms) => {
            put_node(out, 0)?;
            put_terms(out, terms)?;
            put_empty(out)
        }
    }
}

fn put_stop_words(out: &mut Items<u32>, stop_words: &Option<StopChoice>) -> Result<(), Memory>
    ensures { OnOk result (out.new ≡ out.old ++ numbers (option_code stop_code stop_words.now)) }
{
    let Some(choice) = stop_words else {
        return put_empty(out);
    };
    put_node(out, 0)?;
    put_stop_choice(out, choice)?;
    put_empty(out)
}

/// The options after the first three.
fn put_lists(out: &mut Items<u32>, options: &Options) -> Result<(), Memory>
    ensures { OnOk result (out.new ≡ out.old ++ numbers (lists_code options.now)) }
{
    put_node(out, 0)?;
    put_thesaurus(out, &options.thesaurus)?;
    put_node(out, 0)?;
    put_stop_words(out, &options.stop_words)?;
    put_node(out, 0)?;
    put_name(out, &options.language)?;
    put_switch(out, options.wildcards)
}

pub(crate) fn put_options(out: &mut Items<u32>, options: &Options) -> Result<(), Memory>
    ensures { OnOk result (out.new ≡ out.old ++ numbers (options_code options.now)) }
{
    put_node(out, 0)?;
    put_case(out, options.case)?;
    put_node(out, 0)?;
    put_switch(out, options.diacritics_sensitive)?;
    put_node(out, 0)?;
    put_switch(out, options.stemming)?;
    put_lists(out, options)
}

pub(crate) fn put_words(out: &mut Items<u32>, words: &Words) -> Result<(), Memory>
    ensures { OnOk result (out.new ≡ out.old ++ numbers (words_code words.now)) }
{
    put_node(out, 0)?;
    put_texts(out, &words.values)?;
    put_node(out, 0)?;
    put_mode(out, words.mode)?;
    put_node(out, 0)?;
    put_times(out, words.times)?;
    put_options(out, &words.options)
}
