//! How far the spans reach that begin at a place.

ghost use Rattle.std.specs.Prelude.{◌≡◌, ◌<◌, ℕ, cond, get_or, length, max, nat_eq, replicate, OnOk};
ghost use Rattle.element_lines.specs.steps.SpanEnds.{end_at};

use ft_base::{Memory, Span};

/// Puts into the table, for each of so many places, from 0 on, the farthest end of the spans that begin there; 0 where none does.
pub(crate) fn put_span_ends(spans: &[Span], count: usize, ends: &mut Vec<u32>) -> Result<(), Memory>
    ensures size { OnOk result (length ends.new.items ≡ count) }
    ensures ends { OnOk result ((place : ℕ) → place < count → get_or ends.new.items place 0 ≡ end_at spans.now place) }
{
    put_none(count, ends)?;
    for span in spans {
        put_end(ends, *span);
    }
    Ok(())
}

/// Makes it a table of so many places, where no span begins.
fn put_none(count: usize, ends: &mut Vec<u32>) -> Result<(), Memory>
    ensures { OnOk result (ends.new.items ≡ replicate count 0) }
{
    ends.clear();
    ends.resize(count, 0)?;
    Ok(())
}

/// Puts the end of a span to the place at which it begins, if the table has it.
fn put_end(ends: &mut Vec<u32>, span: Span)
    ensures size { length ends.new.items ≡ length ends.old.items }
    ensures ends { (place : ℕ) → place < length ends.old.items
        → get_or ends.new.items place 0 ≡ cond (nat_eq span.from place) (max span.to (get_or ends.old.items place 0)) (get_or ends.old.items place 0) }
{
    let from = span.from as usize;
    if from < ends.len() {
        ends[from] = ends[from].max(span.to);
    }
}
