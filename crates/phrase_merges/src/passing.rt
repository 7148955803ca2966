//! Passing the hits of a tree that end at the next end.

ghost use Rattle.std.specs.Prelude.{◌≡◌, ◌≤◌, map, option_map};
ghost use Rattle.phrase_merges.specs.NearTrees.{both_at, either_at, lists_at, passage_of, within_at};
ghost use Rattle.phrase_merges.specs.steps.Passing.{IsMoved, behind, end_of, list_behind, next_of_lists, start_behind};
ghost use Rattle.phrase_merges.specs.steps.Passing.{start_of_lists, start_within};
ghost use Rattle.ft_operators.specs.Phrases.{first_hit};

use crate::field::{Field, has_room};
use crate::near_tree::{NearPair, NearPhrase, NearTree, NearWindow};
use crate::passed::Passed;
use crate::position::{Position, earlier, end_of, later, soonest, start_of};
use ft_base::Steps;
use ft_operators::PhraseHits;
use std::sync::ledger::Ledger;

/// Passes the hits that end there or before.
#[cycle(pass)]
pub(crate) fn pass<P: PhraseHits, L: Ledger>(
    tree: &mut NearTree<P>,
    end: Position,
    steps: &mut Steps<L>,
) -> Passed
    ensures moved { IsMoved (behind end (passage_of P.state tree.old)) (passage_of P.state tree.new) result }
    ensures grown { steps.old ≤ steps.new }
{
    match tree {
        NearTree::Phrase(phrase) => pass_phrase(phrase, end, steps),
        NearTree::Either(pair) => pass_either(pair, end, steps),
        NearTree::Both(pair) => pass_both(pair, end, steps),
        NearTree::Within(window) => pass_window(window, end, steps),
    }
}

#[cycle(pass)]
fn pass_either<P: PhraseHits, L: Ledger>(
    pair: &mut NearPair<P>,
    end: Position,
    steps: &mut Steps<L>,
) -> Passed
    ensures moved { IsMoved (behind end (either_at (passage_of P.state pair.old.left) (passage_of P.state pair.old.right)))
        (either_at (passage_of P.state pair.new.left) (passage_of P.state pair.new.right)) result }
    ensures grown { steps.old ≤ steps.new }
{
    let left = pass(&mut pair.left, end, steps);
    let right = pass(&mut pair.right, end, steps);
    Passed {
        start: later(left.start, right.start),
        next: soonest(left.next, right.next),
    }
}

#[cycle(pass)]
fn pass_both<P: PhraseHits, L: Ledger>(
    pair: &mut NearPair<P>,
    end: Position,
    steps: &mut Steps<L>,
) -> Passed
    ensures moved { IsMoved (behind end (both_at (passage_of P.state pair.old.left) (passage_of P.state pair.old.right)))
        (both_at (passage_of P.state pair.new.left) (passage_of P.state pair.new.right)) result }
    ensures grown { steps.old ≤ steps.new }
{
    let left = pass(&mut pair.left, end, steps);
    let right = pass(&mut pair.right, end, steps);
    Passed {
        start: earlier(left.start, right.start),
        next: soonest(left.next, right.next),
    }
}

#[cycle(pass)]
fn pass_window<P: PhraseHits, L: Ledger>(
    window: &mut NearWindow<P>,
    end: Position,
    steps: &mut Steps<L>,
) -> Passed
    ensures moved { IsMoved (behind end (within_at (passage_of P.state window.old.operand) window.old.field window.old.start))
        (within_at (passage_of P.state window.new.operand) window.new.field window.new.start) result }
    ensures grown { steps.old ≤ steps.new }
{
    let inside = pass(&mut window.operand, end, steps);
    window.start = later(window.start, start_within(window.field, end, inside.start));
    Passed {
        start: window.start,
        next: inside.next,
    }
}

/// The start, if what begins there and ends at the end lies in the field.
fn start_within(field: Field, end: Position, start: Option<Position>) -> Option<Position>
    ensures { result ≡ start_within field end start }
{
    match start {
        None => None,
        Some(start) => {
            if has_room(field, start, end) {
                Some(start)
            } else {
                None
            }
        }
    }
}

fn pass_phrase<P: PhraseHits, L: Ledger>(
    phrase: &mut NearPhrase<P>,
    end: Position,
    steps: &mut Steps<L>,
) -> Passed
    ensures moved { IsMoved (behind end (lists_at (map P.state phrase.old.lists.items) phrase.old.start))
        (lists_at (map P.state phrase.new.lists.items) phrase.new.start) result }
    ensures grown { steps.old ≤ steps.new }
{
    let passed = pass_lists(&mut phrase.lists, end, phrase.start, steps);
    phrase.start = passed.start;
    passed
}

fn pass_lists<P: PhraseHits, L: Ledger>(
    lists: &mut Vec<P>,
    end: Position,
    start: Option<Position>,
    steps: &mut Steps<L>,
) -> Passed
    ensures left { map P.state lists.new.items ≡ map (list_behind end) (map P.state lists.old.items) }
    ensures start { result.start ≡ start_of_lists end start (map P.state lists.old.items) }
    ensures next { result.next ≡ next_of_lists (map P.state lists.new.items) }
    ensures grown { steps.old ≤ steps.new }
{
    let mut passed = Passed { start, next: None };
    for number in 0..lists.len() {
        let one = pass_list(&mut lists[number], end, passed.start, steps);
        passed = Passed {
            start: one.start,
            next: soonest(passed.next, one.next),
        };
    }
    passed
}

fn pass_list<P: PhraseHits, L: Ledger>(
    list: &mut P,
    end: Position,
    start: Option<Position>,
    steps: &mut Steps<L>,
) -> Passed
    ensures left { P.state list.new ≡ list_behind end (P.state list.old) }
    ensures start { result.start ≡ start_behind end start (P.state list.old).rest }
    ensures next { result.next ≡ option_map end_of (first_hit (P.state list.new).rest) }
    ensures grown { steps.old ≤ steps.new }
{
    let mut start = start;
    while let Some(hit) = list.here() {
        if end.word < hit.to {
            return Passed {
                start,
                next: Some(end_of(&hit)),
            };
        }
        start = later(start, Some(start_of(&hit)));
        list.next(steps);
    }
    Passed { start, next: None }
}
