//! Printing words, ranges and filters.

ghost use Rattle.std.specs.Prelude.{◌≡◌, [], ◌∷◌, OnOk, codes, decimal, map};
ghost use Rattle.ft_syntax.specs.steps.Page.{put, put_all};
ghost use Rattle.ft_syntax.specs.OptionSymbols.{string_symbol, strings_symbols, value_symbols, mode_symbols};
ghost use Rattle.ft_syntax.specs.OptionSymbols.{range_symbols, times_symbols, unit_symbol, filter_symbols};

use crate::printer::Printer;
use ft_base::{Filter, Line, Memory, Mode, Range, Unit};

/// Strings with commas.
pub(crate) fn print_strings(out: &mut Printer, texts: &[Line]) -> Result<(), Memory>
    ensures { OnOk result (out.new ≡ put_all out.old (strings_symbols texts.now)) }
{
    let Some((first, rest)) = texts.split_first() else {
        return Ok(());
    };
    out.string(first.as_str())?;
    for text in rest {
        print_further_string(out, text)?;
    }
    Ok(())
}

fn print_further_string(out: &mut Printer, text: &Line) -> Result<(), Memory>
    ensures { OnOk result (out.new ≡ put_all out.old (codes "," ∷ string_symbol text.now ∷ [])) }
{
    out.symbol(",")?;
    out.string(text.as_str())
}

/// The strings of a value.
pub(crate) fn print_value(out: &mut Printer, texts: &[Line]) -> Result<(), Memory>
    ensures { OnOk result (out.new ≡ put_all out.old (value_symbols texts.now)) }
{
    if texts.len() == 1 {
        return out.string(texts[0].as_str());
    }
    out.symbol("{")?;
    print_strings(out, texts)?;
    out.symbol("}")?;
    Ok(())
}

pub(crate) fn print_mode(out: &mut Printer, mode: Mode) -> Result<(), Memory>
    ensures { OnOk result (out.new ≡ put_all out.old (mode_symbols mode)) }
{
    match mode {
        Mode::Any => Ok(()),
        Mode::AnyWord => out.symbols(&["any", "word"]),
        Mode::All => out.symbol("all"),
        Mode::AllWords => out.symbols(&["all", "words"]),
        Mode::Phrase => out.symbol("phrase"),
    }
}

pub(crate) fn print_range(out: &mut Printer, range: Range) -> Result<(), Memory>
    ensures { OnOk result (out.new ≡ put_all out.old (range_symbols range)) }
{
    match range {
        Range::Exactly(number) => print_bound(out, &["exactly"], number),
        Range::AtLeast(number) => print_bound(out, &["at", "least"], number),
        Range::AtMost(number) => print_bound(out, &["at", "most"], number),
        Range::FromTo(low, high) => {
            print_bound(out, &["from"], low)?;
            print_bound(out, &["to"], high)
        }
    }
}

fn print_bound(out: &mut Printer, words: &[&str], number: u32) -> Result<(), Memory>
    ensures { OnOk result (out.new ≡ put (put_all out.old (map (λ word. word.now) words.now)) (decimal number)) }
{
    out.symbols(words)?;
    out.number(number)
}

/// `occurs` with its range, where it is written.
pub(crate) fn print_times(out: &mut Printer, times: Option<Range>) -> Result<(), Memory>
    ensures { OnOk result (out.new ≡ put_all out.old (times_symbols times)) }
{
    let Some(range) = times else {
        return Ok(());
    };
    out.symbol("occurs")?;
    print_range(out, range)?;
    out.symbol("times")
}

fn print_unit(out: &mut Printer, unit: Unit) -> Result<(), Memory>
    ensures { OnOk result (out.new ≡ put out.old (unit_symbol unit)) }
{
    match unit {
        Unit::Words => out.symbol("words"),
        Unit::Sentences => out.symbol("sentences"),
        Unit::Paragraphs => out.symbol("paragraphs"),
    }
}

pub(crate) fn print_filter(out: &mut Printer, filter: Filter) -> Result<(), Memory>
    ensures { OnOk result (out.new ≡ put_all out.old (filter_symbols filter)) }
{
    match filter {
        Filter::Ordered => out.symbol("ordered"),
        Filter::Window(size, unit) => {
            print_bound(out, &["window"], size)?;
            print_unit(out, unit)
        }
        Filter::Distance(range, unit) => {
            out.symbol("distance")?;
            print_range(out, range)?;
            print_unit(out, unit)
        }
        Filter::SameSentence => out.symbols(&["same", "sentence"]),
        Filter::SameParagraph => out.symbols(&["same", "paragraph"]),
        Filter::DifferentSentence => out.symbols(&["different", "sentence"]),
        Filter::DifferentParagraph => out.symbols(&["different", "paragraph"]),
        Filter::AtStart => out.symbols(&["at", "start"]),
        Filter::AtEnd => out.symbols(&["at", "end"]),
        Filter::EntireContent => out.symbols(&["entire", "content"]),
    }
}
