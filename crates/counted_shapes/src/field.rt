//! Filters that take hits of one part of a text together.

ghost use Rattle.std.specs.Prelude.{◌≡◌};
ghost use Rattle.counted_shapes.specs.Accepted as spec;

use ft_base::{Filter, Unit};

/// A part of a text in which hits are counted.
#[derive(Clone, Copy)]
pub enum Field {
    /// So many words, sentences or paragraphs that follow one another.
    Window(u32, Unit),
    /// One sentence.
    Sentence,
    /// One paragraph.
    Paragraph,
}

/// The fields of which the filter asks for one that holds everything, where it does: a window, `same sentence` or `same paragraph`.
pub fn field_of(filter: Filter) -> Option<Field>
    ensures { result ≡ spec.field_of filter }
{
    match filter {
        Filter::Window(size, unit) => Some(Field::Window(size, unit)),
        Filter::SameSentence => Some(Field::Sentence),
        Filter::SameParagraph => Some(Field::Paragraph),
        _ => None,
    }
}
