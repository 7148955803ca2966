//! Hits that stand out of others (the standard's FTMildNot): some word that they cover is covered by none of the others.

ghost use Rattle.std.specs.Prelude.{◌≡◌, ◌≤◌, ◌-◌, ◌&&◌, ◌||◌, not, length, take, drop, vec_capacity};
ghost use Rattle.std.specs.List.{list_any, range_with_len};
ghost use Rattle.all_matches.specs.MildNot.{stands_out};
ghost use Rattle.all_matches.specs.Positions.{covers, places_from_to};
ghost use Rattle.ft_operators.specs.declared.course.Course.{Course};
ghost use Rattle.ft_operators.specs.Standing.{includes_now};
ghost use Rattle.ft_operators.specs.steps.Apart.{MayTry, with_includes};
ghost use Rattle.ft_operators.specs.steps.Nodes.{standing};

use crate::PhraseHits;
use crate::gathering::gather;
use crate::node::Pair;
use ft_base::Hit;

/// Of the ways of the right side that were tried: whether one has a hit, and whether the way of the left side stands out
/// of each.
#[derive(Clone, Copy)]
pub(crate) struct Tried {
    pub(crate) some: bool,
    pub(crate) all: bool,
}

/// What the present way of the right side makes of those before it.
pub(crate) fn with_way<P: PhraseHits>(tried: Tried, pair: &Pair<P>, held: &mut Vec<Hit>) -> Tried
    ensures tried { (course other : Course) → MayTry (standing P.state course pair.now.left) (standing P.state other pair.now.right) (vec_capacity held.old)
        → result ≡ with_includes (includes_now ((standing P.state course pair.now.left).rest))
        (includes_now ((standing P.state other pair.now.right).rest)) tried }
    ensures room { vec_capacity held.old ≤ vec_capacity held.new }
{
    held.clear();
    gather(&pair.left, held);
    let middle = held.len();
    gather(&pair.right, held);
    with_sides(tried, middle, held)
}

/// The same of the includes of both sides, those of the left one before the middle.
fn with_sides(tried: Tried, middle: usize, held: &Vec<Hit>) -> Tried
    requires { middle ≤ length held.now.items }
    ensures { result ≡ with_includes (take middle held.now.items) (drop middle held.now.items) tried }
{
    with_includes(tried, &held[..middle], &held[middle..])
}

/// Whether the way of the left side is one of the mild not, when all of the right side were tried.
pub(crate) fn admits(tried: Tried) -> bool
    ensures { result ≡ (not tried.some || tried.all) }
{
    !tried.some || tried.all
}

/// Whether the way of the left side is none of the mild not, whatever ways of the right side follow.
pub(crate) fn is_barred(tried: Tried) -> bool
    ensures { result ≡ (tried.some && not tried.all) }
{
    tried.some && !tried.all
}

/// What one more way of the right side, with these includes, makes of those before it.
fn with_includes(tried: Tried, left: &[Hit], right: &[Hit]) -> Tried
    ensures { result ≡ with_includes left.now right.now tried }
{
    Tried {
        some: tried.some || !right.is_empty(),
        all: tried.all && stands_out(left, right),
    }
}

/// Whether some word that the hits on the left cover is covered by none on the right.
fn stands_out(left: &[Hit], right: &[Hit]) -> bool
    ensures { result ≡ stands_out left.now right.now }
{
    left.iter().any(|hit| has_free_word(hit, right))
}

/// Whether some word of the hit is covered by none of the others.
fn has_free_word(hit: &Hit, others: &[Hit]) -> bool
    ensures { result ≡ list_any (λ place. not (list_any (λ other. covers other place) others.now)) (places_from_to hit.now.from hit.now.to) }
{
    let end = u64::from(hit.to) + 1;
    some_is_free(u64::from(hit.from), end, others)
}

/// Whether some word from `from` to `to - 1` is covered by none of the hits.
fn some_is_free(from: u64, to: u64, hits: &[Hit]) -> bool
    ensures { result ≡ list_any (λ place. not (list_any (λ hit. covers hit place) hits.now)) (range_with_len from (to - from)) }
{
    let mut place = from;
    while place < to {
        if !are_covering(hits, place) {
            return true;
        }
        place += 1;
    }
    false
}

/// Whether one of the hits covers the word.
fn are_covering(hits: &[Hit], place: u64) -> bool
    ensures { result ≡ list_any (λ hit. covers hit place) hits.now }
{
    hits.iter().any(|hit| u64::from(hit.from) <= place && place <= u64::from(hit.to))
}
