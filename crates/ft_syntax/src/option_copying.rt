//! Copies of words and their options.

ghost use Rattle.std.specs.Prelude.{◌≡◌, IfOk};

use ft_base::{
    Items, Line, Lines, Memory, Options, StopChoice, StopSource, StopTerm, StopTerms,
    ThesaurusChoice, ThesaurusUse, ThesaurusUses, Words,
};
use std::alloc::Global;

fn copy_line(alloc: Global, line: &Line) -> Result<Line, Memory>
    ensures { IfOk result (λ copy. copy ≡ line.now) }
{
    Line::read(alloc, line.as_str())
}

fn copy_name(alloc: Global, name: &Option<Line>) -> Result<Option<Line>, Memory>
    ensures { IfOk result (λ copy. copy ≡ name.now) }
{
    match name {
        None => Ok(None),
        Some(line) => Ok(Some(copy_line(alloc, line)?)),
    }
}

fn copy_lines(alloc: Global, lines: &Lines) -> Result<Lines, Memory>
    ensures { IfOk result (λ copy. copy ≡ lines.now) }
{
    let mut copies = Items::new(alloc);
    for line in lines.as_slice() {
        copies.push(copy_line(alloc, line)?)?;
    }
    Ok(copies)
}

fn copy_use(alloc: Global, choice: &ThesaurusUse) -> Result<ThesaurusUse, Memory>
    ensures { IfOk result (λ copy. copy ≡ choice.now) }
{
    Ok(ThesaurusUse {
        name: copy_line(alloc, &choice.name)?,
        relationship: copy_name(alloc, &choice.relationship)?,
        levels: choice.levels,
    })
}

fn copy_uses(alloc: Global, uses: &ThesaurusUses) -> Result<ThesaurusUses, Memory>
    ensures { IfOk result (λ copy. copy ≡ uses.now) }
{
    let mut copies = Items::new(alloc);
    for choice in uses.as_slice() {
        copies.push(copy_use(alloc, choice)?)?;
    }
    Ok(copies)
}

fn copy_thesaurus(
    alloc: Global,
    thesaurus: &Option<ThesaurusChoice>,
) -> Result<Option<ThesaurusChoice>, Memory>
    ensures { IfOk result (λ copy. copy ≡ thesaurus.now) }
{
    match thesaurus {
        None => Ok(None),
        Some(choice) => Ok(Some(copy_thesaurus_choice(alloc, choice)?)),
    }
}

fn copy_thesaurus_choice(alloc: Global, choice: &ThesaurusChoice) -> Result<ThesaurusChoice, Memory>
    ensures { IfOk result (λ copy. copy ≡ choice.now) }
{
    match choice {
        ThesaurusChoice::No => Ok(ThesaurusChoice::No),
        ThesaurusChoice::Uses(uses) => Ok(ThesaurusChoice::Uses(copy_uses(alloc, uses)?)),
    }
}

fn copy_source(alloc: Global, source: &StopSource) -> Result<StopSource, Memory>
    ensures { IfOk result (λ copy. copy ≡ source.now) }
{
    match source {
        StopSource::At(name) => Ok(StopSource::At(copy_line(alloc, name)?)),
        StopSource::Written(texts) => Ok(StopSource::Written(copy_lines(alloc, texts)?)),
    }
}

fn copy_term(alloc: Global, term: &StopTerm) -> Result<StopTerm, Memory>
    ensures { IfOk result (λ copy. copy ≡ term.now) }
{
    Ok(StopTerm {
        except: term.except,
        source: copy_source(alloc, &term.source)?,
    })
}

fn copy_terms(alloc: Global, terms: &StopTerms) -> Result<StopTerms, Memory>
    ensures { IfOk result (λ copy. copy ≡ terms.now) }
{
    let mut copies = Items::new(alloc);
    for term in terms.as_slice() {
        copies.push(copy_term(alloc, term)?)?;
    }
    Ok(copies)
}

fn copy_stop_choice(alloc: Global, choice: &StopChoice) -> Result<StopChoice, Memory>
    ensures { IfOk result (λ copy. copy ≡ choice.now) }
{
    match choice {
        StopChoice::No => Ok(StopChoice::No),
        StopChoice::Sets(terms) => Ok(StopChoice::Sets(copy_terms(alloc, terms)?)),
    }
}

fn copy_stop_words(
    alloc: Global,
    stop_words: &Option<StopChoice>,
) -> Result<Option<StopChoice>, Memory>
    ensures { IfOk result (λ copy. copy ≡ stop_words.now) }
{
    match stop_words {
        None => Ok(None),
        Some(choice) => Ok(Some(copy_stop_choice(alloc, choice)?)),
    }
}

/// A copy of options.
pub fn copy_options(alloc: Global, options: &Options) -> Result<Options, Memory>
    ensures { IfOk result (λ copy. copy ≡ options.now) }
{
    Ok(Options {
        case: options.case,
        diacritics_sensitive: options.diacritics_sensitive,
        stemming: options.stemming,
        thesaurus: copy_thesaurus(alloc, &options.thesaurus)?,
        stop_words: copy_stop_words(alloc, &options.stop_words)?,
        language: copy_name(alloc, &options.language)?,
        wildcards: options.wildcards,
    })
}

/// A copy of words, with what is written after them.
pub fn copy_words(alloc: Global, words: &Words) -> Result<Words, Memory>
    ensures { IfOk result (λ copy. copy ≡ words.now) }
{
    Ok(Words {
        values: copy_lines(alloc, &words.values)?,
        mode: words.mode,
        times: words.times,
        options: copy_options(alloc, &words.options)?,
    })
}
