//! Windows and scopes: what lies in one is kept.

ghost use Rattle.std.specs.Prelude.{◌≡◌, true};
ghost use Rattle.phrase_merges.specs.Near.{is_field};
ghost use Rattle.phrase_merges.specs.NearTrees.{filter_of};
ghost use Rattle.phrase_merges.specs.steps.Passing.{has_room, size_of, unit_of};

use crate::position::{Position, number_in};
use ft_base::{Filter, Unit};

/// A filter that keeps what lies in a window, in one sentence or in one paragraph.
#[derive(Clone, Copy)]
pub(crate) enum Field {
    Window(u32, Unit),
    SameSentence,
    SameParagraph,
}

/// The window or scope that a filter is.
pub(crate) fn field_of(filter: Filter) -> Field
    requires { is_field filter ≡ true }
    ensures { filter_of result ≡ filter }
{
    match filter {
        Filter::Window(size, unit) => Field::Window(size, unit),
        Filter::SameSentence => Field::SameSentence,
        _ => Field::SameParagraph,
    }
}

/// Whether what begins and ends there lies in one of them. A sentence is a window of one sentence.
pub(crate) fn has_room(field: Field, start: Position, end: Position) -> bool
    ensures { result ≡ has_room field start end }
{
    let unit = unit_of(field);
    let size = u64::from(size_of(field));
    u64::from(number_in(unit, end)) < u64::from(number_in(unit, start)) + size
}

fn size_of(field: Field) -> u32
    ensures { result ≡ size_of field }
{
    match field {
        Field::Window(size, _) => size,
        Field::SameSentence => 1,
        Field::SameParagraph => 1,
    }
}

fn unit_of(field: Field) -> Unit
    ensures { result ≡ unit_of field }
{
    match field {
        Field::Window(_, unit) => unit,
        Field::SameSentence => Unit::Sentences,
        Field::SameParagraph => Unit::Paragraphs,
    }
}
