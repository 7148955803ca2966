//! Whether phrases stand near one another.

ghost use Rattle.std.specs.Prelude.{◌≡◌, ◌≤◌, true};
ghost use Rattle.window_merges.specs.Choices.{some_choice};
ghost use Rattle.phrase_merges.specs.Choices.{are_near};
ghost use Rattle.phrase_merges.specs.Rows.{all_aims, all_hits, all_rising};

use crate::edge::Edge;
use crate::farthest::farthest;
use ft_base::{Steps, Unit};
use ft_operators::PhraseHits;
use std::sync::ledger::Ledger;

/// Whether one hit of each phrase can be chosen so that no two of them have more than `size` words, sentences or paragraphs between
/// them.
///
/// The lists go forward only: as long as the hits that begin first begin too far on, those that end too far before the farthest
/// of them are left behind.
pub fn stand_near<P: PhraseHits, L: Ledger>(
    phrases: &mut Vec<Vec<P>>,
    size: u32,
    unit: Unit,
    steps: &mut Steps<L>,
) -> bool
    requires { all_rising P.state phrases.old.items ≡ true }
    ensures near { result ≡ some_choice (are_near size unit) (all_hits P.state phrases.old.items) }
    ensures aims { all_aims P.state phrases.new.items ≡ all_aims P.state phrases.old.items }
    ensures grown { steps.old ≤ steps.new }
{
    if phrases.is_empty() {
        return false;
    }
    let reach = u64::from(size) + 1;
    let mut low: u64 = 0;
    while let Some(far) = farthest(phrases, Edge::End, Edge::Start, unit, low, steps) {
        let far = u64::from(far);
        if far <= low + reach {
            return true;
        }
        low = far - reach;
    }
    false
}
