ghost use Rattle.std.specs.Prelude.{◌≡◌, ◌==◌, suc};
ghost use Rattle.std.specs.List.{list_any};
ghost use Rattle.all_matches.specs.Filters.{passes};

use crate::Includes;
use crate::covering::are_covered;
use crate::joining::fits_window;
use crate::neighbours::neighbours_in_range;
use crate::pairs::{are_in_order, every_two_are_apart, lie_in_one};
use ft_base::{Filter, Hit, Span, Unit};

/// Whether a filter keeps a Match with these includes in the item of this span, whose numbers are those of the hits. A
/// window filter keeps it exactly where there is a window of its size round the includes.
pub fn passes(filter: &Filter, includes: &Includes<'_>, item: Span) -> bool
    ensures kept { result ≡ passes filter.now includes.now item }
{
    let hits = includes.hits();
    match *filter {
        Filter::Ordered => are_in_order(hits),
        Filter::Window(size, unit) => fits_window(size, unit, hits),
        Filter::Distance(range, unit) => neighbours_in_range(range, unit, hits),
        Filter::SameSentence => lie_in_one(Unit::Sentences, hits),
        Filter::SameParagraph => lie_in_one(Unit::Paragraphs, hits),
        Filter::DifferentSentence => every_two_are_apart(Unit::Sentences, hits),
        Filter::DifferentParagraph => every_two_are_apart(Unit::Paragraphs, hits),
        Filter::AtStart => some_begins(hits, item.from),
        Filter::AtEnd => some_ends(hits, item.to),
        Filter::EntireContent => are_covered(hits, u64::from(item.from), u64::from(item.to)),
    }
}

/// Whether some hit begins at the word `from`.
fn some_begins(hits: &[Hit], from: u32) -> bool
    ensures { result ≡ list_any (λ hit. hit.from == from) hits.now }
{
    hits.iter().any(|hit| hit.from == from)
}

/// Whether some hit ends at the word before `to`.
fn some_ends(hits: &[Hit], to: u32) -> bool
    ensures { result ≡ list_any (λ hit. suc hit.to == to) hits.now }
{
    hits.iter()
        .any(|hit| u64::from(hit.to) + 1 == u64::from(to))
}
