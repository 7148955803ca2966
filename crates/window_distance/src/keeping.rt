ghost use Rattle.std.specs.Prelude.{◌≡◌};
ghost use Rattle.all_matches.specs.Filters.{keeps};

use crate::Includes;
use crate::pairs::{all_agree_in_order, all_are_apart, all_share_one, some_in_range};
use crate::positions::{lies_in_window, share_one};
use all_matches::Window;
use ft_base::{Filter, Hit, Unit};

/// Whether a filter keeps an exclude of a Match with these includes. Of a window filter it is asked for one of its
/// windows, and keeps the exclude where it lies in that window as a whole; without a window it keeps none. Any other
/// filter doesn't look at the window.
pub fn keeps(filter: &Filter, includes: &Includes<'_>, window: Option<Window>, hit: &Hit) -> bool
    ensures kept { result ≡ keeps filter.now includes.now window hit.now }
{
    let hits = includes.hits();
    match *filter {
        Filter::Ordered => all_agree_in_order(hit, hits),
        Filter::Window(_, unit) => match window {
            None => false,
            Some(window) => lies_in_window(unit, &window, hit),
        },
        Filter::Distance(range, unit) => some_in_range(range, unit, hit, hits),
        Filter::SameSentence => {
            share_one(Unit::Sentences, hit, hit) && all_share_one(Unit::Sentences, hit, hits)
        }
        Filter::SameParagraph => {
            share_one(Unit::Paragraphs, hit, hit) && all_share_one(Unit::Paragraphs, hit, hits)
        }
        Filter::DifferentSentence => all_are_apart(Unit::Sentences, hit, hits),
        Filter::DifferentParagraph => all_are_apart(Unit::Paragraphs, hit, hits),
        Filter::AtStart | Filter::AtEnd | Filter::EntireContent => true,
    }
}
