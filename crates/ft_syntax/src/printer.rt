//! Symbols set out with spaces.

ghost use Rattle.std.specs.Prelude.{◌≡◌, [], ◌∷◌, ◌++◌, ◌||◌, if◌then◌else◌, OnOk, decimal, encode_utf8, flat_map, map, string_bytes};
ghost use Rattle.ft_syntax.specs.Spacing as spec;
ghost use Rattle.ft_syntax.specs.steps.Page.{empty_page, put, put_all};
ghost use Rattle.ft_syntax.specs.OptionSymbols.{in_quotes, string_symbol};

use ft_base::{Line, Memory};
use itoa::Buffer;
use std::alloc::Global;
use std::marker::Model;

/// A text under way, and whether the next symbol stands close to it.
#[derive(Drop)]
pub(crate) struct Printer {
    text: String,
    is_open: bool,
}

impl Model for Printer {
    ghost use Rattle.std.specs.Prelude.{string_bytes};
    ghost use Rattle.ft_syntax.specs.steps.Page.{Page};

    ghost Value = { Page };

    ghost view = { λ p. record { text = string_bytes p.text; is_open = p.is_open } };
}

impl Printer {
    pub(crate) fn new(alloc: Global) -> Printer
        ensures { result ≡ empty_page }
    {
        Printer {
            text: String::new(alloc),
            is_open: true,
        }
    }

    /// Adds a symbol.
    #[tactic(auto, unfolding(crate::specs::steps::Page::put))]
    pub(crate) fn symbol(&mut self, symbol: &str) -> Result<(), Memory>
        ensures { OnOk result (self.new ≡ put self.old symbol.now) }
    {
        let is_open = self.is_open;
        push_gap(&mut self.text, is_open, closes(symbol))?;
        self.text.push_str(symbol)?;
        self.is_open = opens(symbol);
        Ok(())
    }

    /// Adds symbols one after the other.
    pub(crate) fn symbols(&mut self, symbols: &[&str]) -> Result<(), Memory>
        ensures { OnOk result (self.new ≡ put_all self.old (map (λ symbol. symbol.now) symbols.now)) }
    {
        for symbol in symbols {
            self.symbol(symbol)?;
        }
        Ok(())
    }

    /// Adds a string in quotation marks.
    #[tactic(auto, unfolding(crate::specs::steps::Page::put))]
    pub(crate) fn string(&mut self, text: &str) -> Result<(), Memory>
        ensures { OnOk result (self.new ≡ put self.old (string_symbol text.now)) }
    {
        let is_open = self.is_open;
        push_gap(&mut self.text, is_open, false)?;
        push_quoted(&mut self.text, text)?;
        self.is_open = false;
        Ok(())
    }

    /// Adds a number.
    pub(crate) fn number(&mut self, number: u32) -> Result<(), Memory>
        ensures { OnOk result (self.new ≡ put self.old (decimal number)) }
    {
        let mut buffer = Buffer::new();
        self.symbol(buffer.format(number))
    }

    /// The text.
    pub(crate) fn into_line(self) -> Line
        ensures { result ≡ self.text }
    {
        let Printer { text, is_open: _ } = self;
        Line::from_string(text)
    }
}

fn opens(symbol: &str) -> bool
    ensures { result ≡ spec.opens symbol.now }
{
    symbol == "(" || symbol == "{"
}

fn closes(symbol: &str) -> bool
    ensures { result ≡ spec.closes symbol.now }
{
    symbol == ")" || symbol == "}" || symbol == ","
}

fn push_gap(text: &mut String, is_open: bool, closes: bool) -> Result<(), Memory>
    ensures { OnOk result (string_bytes text.new ≡ string_bytes text.old ++ (if is_open || closes then [] else 32 ∷ [])) }
{
    if !is_open && !closes {
        text.push(' ')?;
    }
    Ok(())
}

fn push_quoted(out: &mut String, text: &str) -> Result<(), Memory>
    ensures { OnOk result (string_bytes out.new ≡ string_bytes out.old ++ string_symbol text.now) }
{
    out.push('"')?;
    for letter in text.chars() {
        push_letter(out, letter)?;
    }
    out.push('"')?;
    Ok(())
}

#[tactic(auto, using(crate::proofs::Quotes::in_quotes_letter))]
fn push_letter(out: &mut String, letter: char) -> Result<(), Memory>
    ensures { OnOk result (string_bytes out.new ≡ string_bytes out.old ++ flat_map in_quotes (encode_utf8 letter)) }
{
    if letter == '"' {
        out.push_str("\"\"")?;
    } else {
        out.push(letter)?;
    }
    Ok(())
}
