//! The numbers of numbers, texts and ranges.

ghost use Rattle.std.specs.Prelude.{◌≡◌, [], ◌∷◌, ◌++◌, OnOk};
ghost use Rattle.ft_rewriter.specs.Code.{empty, number_code, text_code, list_code, option_code, flag_code, range_code, unit_code, filter_code, numbers};

use ft_base::{Filter, Items, Line, Lines, Memory, Range, Unit};

/// An empty tree.
pub(crate) fn put_empty(out: &mut Items<u32>) -> Result<(), Memory>
    ensures { OnOk result (out.new ≡ out.old ++ numbers empty) }
{
    out.push(0)
}

/// The number of a node. Its two parts have to follow.
pub(crate) fn put_node(out: &mut Items<u32>, number: u32) -> Result<(), Memory>
    ensures { OnOk result (out.new ≡ out.old ++ 1 ∷ number ∷ []) }
{
    out.push(1)?;
    out.push(number)?;
    Ok(())
}

pub(crate) fn put_number(out: &mut Items<u32>, number: u32) -> Result<(), Memory>
    ensures { OnOk result (out.new ≡ out.old ++ numbers (number_code number)) }
{
    put_node(out, number)?;
    put_empty(out)?;
    put_empty(out)
}

pub(crate) fn put_text(out: &mut Items<u32>, text: &Line) -> Result<(), Memory>
    ensures { OnOk result (out.new ≡ out.old ++ numbers (text_code text.now)) }
{
    for byte in text.as_str().as_bytes() {
        put_node(out, *byte as u32)?;
        put_empty(out)?;
    }
    put_empty(out)
}

pub(crate) fn put_texts(out: &mut Items<u32>, texts: &Lines) -> Result<(), Memory>
    ensures { OnOk result (out.new ≡ out.old ++ numbers (list_code text_code texts.now)) }
{
    for text in texts.as_slice() {
        put_node(out, 0)?;
        put_text(out, text)?;
    }
    put_empty(out)
}

/// A text that may not be there.
pub(crate) fn put_name(out: &mut Items<u32>, name: &Option<Line>) -> Result<(), Memory>
    ensures { OnOk result (out.new ≡ out.old ++ numbers (option_code text_code name.now)) }
{
    let Some(text) = name else {
        return put_empty(out);
    };
    put_node(out, 0)?;
    put_text(out, text)?;
    put_empty(out)
}

pub(crate) fn put_flag(out: &mut Items<u32>, flag: bool) -> Result<(), Memory>
    ensures { OnOk result (out.new ≡ out.old ++ numbers (flag_code flag)) }
{
    if flag {
        put_number(out, 1)
    } else {
        put_number(out, 0)
    }
}

/// An option that is on or off, or not written.
pub(crate) fn put_switch(out: &mut Items<u32>, is_on: Option<bool>) -> Result<(), Memory>
    ensures { OnOk result (out.new ≡ out.old ++ numbers (option_code flag_code is_on)) }
{
    let Some(flag) = is_on else {
        return put_empty(out);
    };
    put_node(out, 0)?;
    put_flag(out, flag)?;
    put_empty(out)
}

fn put_bound(out: &mut Items<u32>, kind: u32, number: u32) -> Result<(), Memory>
    ensures { OnOk result (out.new ≡ out.old ++ 1 ∷ kind ∷ numbers (number_code number) ++ numbers empty) }
{
    put_node(out, kind)?;
    put_number(out, number)?;
    put_empty(out)
}

fn put_range(out: &mut Items<u32>, range: Range) -> Result<(), Memory>
    ensures { OnOk result (out.new ≡ out.old ++ numbers (range_code range)) }
{
    match range {
        Range::Exactly(number) => put_bound(out, 0, number),
        Range::AtLeast(number) => put_bound(out, 1, number),
        Range::AtMost(number) => put_bound(out, 2, number),
        Range::FromTo(low, high) => {
            put_node(out, 3)?;
            put_number(out, low)?;
            put_number(out, high)
        }
    }
}

/// A range that may not be written.
pub(crate) fn put_times(out: &mut Items<u32>, times: Option<Range>) -> Result<(), Memory>
    ensures { OnOk result (out.new ≡ out.old ++ numbers (option_code range_code times)) }
{
    let Some(range) = times else {
        return put_empty(out);
    };
    put_node(out, 0)?;
    put_range(out, range)?;
    put_empty(out)
}

fn put_unit(out: &mut Items<u32>, unit: Unit) -> Result<(), Memory>
    ensures { OnOk result (out.new ≡ out.old ++ numbers (unit_code unit)) }
{
    match unit {
        Unit::Words => put_number(out, 0),
        Unit::Sentences => put_number(out, 1),
        Unit::Paragraphs => put_number(out, 2),
    }
}

pub(crate) fn put_filter(out: &mut Items<u32>, filter: Filter) -> Result<(), Memory>
    ensures { OnOk result (out.new ≡ out.old ++ numbers (filter_code filter)) }
{
    match filter {
        Filter::Ordered => put_number(out, 0),
        Filter::Window(size, unit) => {
            put_node(out, 1)?;
            put_number(out, size)?;
            put_unit(out, unit)
        }
        Filter::Distance(range, unit) => {
            put_node(out, 2)?;
            put_range(out, range)?;
            put_unit(out, unit)
        }
        Filter::SameSentence => put_number(out, 3),
        Filter::SameParagraph => put_number(out, 4),
        Filter::DifferentSentence => put_number(out, 5),
        Filter::DifferentParagraph => put_number(out, 6),
        Filter::AtStart => put_number(out, 7),
        Filter::AtEnd => put_number(out, 8),
        Filter::EntireContent => put_number(out, 9),
    }
}
