//! Printing selections.
#![tactic(auto, using(crate::proofs::Pages::put_all_append))]

ghost use Rattle.std.specs.Prelude.{◌≡◌, ◌∷◌, ◌++◌, IfOk, OnOk, codes, map};
ghost use Rattle.ft_syntax.specs.OptionSymbols.{filter_symbols, options_symbols};
ghost use Rattle.ft_syntax.specs.steps.Page.{put_all};
ghost use Rattle.ft_syntax.specs.Symbols.{level as level_of, in_parentheses, operand_symbols, operands_symbols, words_symbols, symbols, printed};
ghost use Rattle.ft_syntax.specs.View.{form};

use crate::Selections;
use crate::print_options::print_options;
use crate::print_words::{print_filter, print_mode, print_times, print_value};
use crate::printer::Printer;
use crate::selection::Selection;
use ft_base::{Filter, Line, Memory, Options, Words};
use std::alloc::Global;

/// The printed form of a selection, which reads back as that selection: symbols with one space between two, parentheses
/// where an operand holds less closely than its place wants, and of the options only those that were given.
pub fn print_selection(alloc: Global, selection: &Selection) -> Result<Line, Memory>
    ensures { IfOk result (λ line. line ≡ printed (form selection.now)) }
{
    let mut out = Printer::new(alloc);
    print(&mut out, selection)?;
    Ok(out.into_line())
}

/// How closely a selection holds together.
fn level(selection: &Selection) -> u8
    ensures { result ≡ level_of (form selection.now) }
{
    match selection {
        Selection::Filtered(..) => 0,
        Selection::Or(..) => 1,
        Selection::And(..) => 2,
        Selection::MildNot(..) => 3,
        Selection::Not(..) => 4,
        Selection::Words(..) => 5,
        Selection::With(..) => 5,
    }
}

fn print_words(out: &mut Printer, words: &Words) -> Result<(), Memory>
    ensures { OnOk result (out.new ≡ put_all out.old (words_symbols words.now)) }
{
    print_value(out, words.values.as_slice())?;
    print_mode(out, words.mode)?;
    print_times(out, words.times)?;
    print_options(out, &words.options)?;
    Ok(())
}

#[cycle(print)]
#[tactic(auto, using(crate::proofs::Pages::put_all_append), unfolding(crate::specs::Symbols::symbols))]
fn print(out: &mut Printer, selection: &Selection) -> Result<(), Memory>
    ensures { OnOk result (out.new ≡ put_all out.old (symbols (form selection.now))) }
{
    match selection {
        Selection::Words(words) => print_words(out, words),
        Selection::Or(parts) => print_operands(out, parts, "ftor", 2),
        Selection::And(parts) => print_operands(out, parts, "ftand", 3),
        Selection::MildNot(left, right) => {
            print_operand(out, left, 3)?;
            out.symbols(&["not", "in"])?;
            print_operand(out, right, 4)?;
            Ok(())
        }
        Selection::Not(operand) => print_not(out, operand),
        Selection::Filtered(operand, filter) => print_filtered(out, operand, *filter),
        Selection::With(operand, options) => print_with(out, operand, options),
    }
}

#[cycle(print)]
fn print_not(out: &mut Printer, operand: &Selection) -> Result<(), Memory>
    ensures { OnOk result (out.new ≡ put_all out.old (codes "ftnot" ∷ operand_symbols 5 (form operand.now))) }
{
    out.symbol("ftnot")?;
    print_operand(out, operand, 5)?;
    Ok(())
}

#[cycle(print)]
fn print_filtered(out: &mut Printer, operand: &Selection, filter: Filter) -> Result<(), Memory>
    ensures { OnOk result (out.new ≡ put_all out.old (operand_symbols 0 (form operand.now) ++ filter_symbols filter)) }
{
    print_operand(out, operand, 0)?;
    print_filter(out, filter)?;
    Ok(())
}

#[cycle(print)]
fn print_with(out: &mut Printer, operand: &Selection, options: &Options) -> Result<(), Memory>
    ensures { OnOk result (out.new ≡ put_all out.old (in_parentheses (symbols (form operand.now)) ++ options_symbols options.now)) }
{
    print_in_parentheses(out, operand)?;
    print_options(out, options)?;
    Ok(())
}

/// An operand in a place that wants this level.
#[cycle(print)]
fn print_operand(out: &mut Printer, operand: &Selection, wanted: u8) -> Result<(), Memory>
    ensures { OnOk result (out.new ≡ put_all out.old (operand_symbols wanted (form operand.now))) }
{
    if level(operand) < wanted {
        print_in_parentheses(out, operand)
    } else {
        print(out, operand)
    }
}

#[cycle(print)]
fn print_in_parentheses(out: &mut Printer, operand: &Selection) -> Result<(), Memory>
    ensures { OnOk result (out.new ≡ put_all out.old (in_parentheses (symbols (form operand.now)))) }
{
    out.symbol("(")?;
    print(out, operand)?;
    out.symbol(")")?;
    Ok(())
}

/// Operands with a symbol between each two, in places that want this level.
#[cycle(print)]
fn print_operands(
    out: &mut Printer,
    parts: &Selections,
    separator: &str,
    wanted: u8,
) -> Result<(), Memory>
    ensures { OnOk result (out.new ≡ put_all out.old (operands_symbols separator.now wanted (map form parts.now))) }
{
    let Some((first, rest)) = parts.as_slice().split_first() else {
        return Ok(());
    };
    print_operand(out, first, wanted)?;
    for part in rest {
        out.symbol(separator)?;
        print_operand(out, part, wanted)?;
    }
    Ok(())
}
