//! Aiming the lists of a tree at a span of a document.

ghost use Rattle.std.specs.Prelude.{◌≡◌, ◌≤◌, map, option_map, true};
ghost use Rattle.std.specs.List.{list_all};
ghost use Rattle.ft_operators.specs.Phrases.{aimed_at, first_hit};
ghost use Rattle.phrase_merges.specs.NearTrees.{aims_at, both_at, either_at, lists_at, passage_of, within_at};
ghost use Rattle.phrase_merges.specs.steps.Passing.{IsAimed, aimed, end_of, next_of_lists};

use crate::near_tree::{NearPair, NearPhrase, NearTree, NearWindow};
use crate::position::{Position, end_of, soonest};
use ft_base::{DocId, Span, Steps};
use ft_operators::PhraseHits;
use std::sync::ledger::Ledger;

/// Aims all lists at the span of the document, and tells the first end of their hits there.
#[cycle(aim)]
pub(crate) fn aim<P: PhraseHits, L: Ledger>(
    tree: &mut NearTree<P>,
    doc: DocId,
    span: Span,
    steps: &mut Steps<L>,
) -> Option<Position>
    requires { (aims_at (passage_of P.state tree.old)).may doc.0 span ≡ true }
    ensures aimed { IsAimed (aimed doc.0 span (passage_of P.state tree.old)) (passage_of P.state tree.new) result }
    ensures grown { steps.old ≤ steps.new }
{
    match tree {
        NearTree::Phrase(phrase) => aim_phrase(phrase, doc, span, steps),
        NearTree::Either(pair) => aim_pair(pair, doc, span, steps),
        NearTree::Both(pair) => aim_pair(pair, doc, span, steps),
        NearTree::Within(window) => aim_window(window, doc, span, steps),
    }
}

#[cycle(aim)]
fn aim_pair<P: PhraseHits, L: Ledger>(
    pair: &mut NearPair<P>,
    doc: DocId,
    span: Span,
    steps: &mut Steps<L>,
) -> Option<Position>
    requires { (aims_at (either_at (passage_of P.state pair.old.left) (passage_of P.state pair.old.right))).may doc.0 span ≡ true }
    ensures aimed { IsAimed (aimed doc.0 span (either_at (passage_of P.state pair.old.left) (passage_of P.state pair.old.right)))
        (either_at (passage_of P.state pair.new.left) (passage_of P.state pair.new.right)) result }
    ensures grown { steps.old ≤ steps.new }
{
    let left = aim(&mut pair.left, doc, span, steps);
    let right = aim(&mut pair.right, doc, span, steps);
    soonest(left, right)
}

#[cycle(aim)]
fn aim_window<P: PhraseHits, L: Ledger>(
    window: &mut NearWindow<P>,
    doc: DocId,
    span: Span,
    steps: &mut Steps<L>,
) -> Option<Position>
    requires { (aims_at (within_at (passage_of P.state window.old.operand) window.old.field window.old.start)).may doc.0 span ≡ true }
    ensures aimed { IsAimed (aimed doc.0 span (within_at (passage_of P.state window.old.operand) window.old.field window.old.start))
        (within_at (passage_of P.state window.new.operand) window.new.field window.new.start) result }
    ensures grown { steps.old ≤ steps.new }
{
    window.start = None;
    aim(&mut window.operand, doc, span, steps)
}

fn aim_phrase<P: PhraseHits, L: Ledger>(
    phrase: &mut NearPhrase<P>,
    doc: DocId,
    span: Span,
    steps: &mut Steps<L>,
) -> Option<Position>
    requires { (aims_at (lists_at (map P.state phrase.old.lists.items) phrase.old.start)).may doc.0 span ≡ true }
    ensures aimed { IsAimed (aimed doc.0 span (lists_at (map P.state phrase.old.lists.items) phrase.old.start))
        (lists_at (map P.state phrase.new.lists.items) phrase.new.start) result }
    ensures grown { steps.old ≤ steps.new }
{
    phrase.start = None;
    aim_lists(&mut phrase.lists, doc, span, steps)
}

fn aim_lists<P: PhraseHits, L: Ledger>(
    lists: &mut Vec<P>,
    doc: DocId,
    span: Span,
    steps: &mut Steps<L>,
) -> Option<Position>
    requires { list_all (λ s. s.aims.may doc.0 span) (map P.state lists.old.items) ≡ true }
    ensures aimed { map P.state lists.new.items ≡ map (aimed_at doc.0 span) (map P.state lists.old.items) }
    ensures first { result ≡ next_of_lists (map P.state lists.new.items) }
    ensures grown { steps.old ≤ steps.new }
{
    let mut next = None;
    for number in 0..lists.len() {
        let list = &mut lists[number];
        list.aim(doc, span, steps);
        next = soonest(next, end_here(list));
    }
    next
}

/// The end of the hit at the place of the list.
fn end_here<P: PhraseHits>(list: &P) -> Option<Position>
    ensures { result ≡ option_map end_of (first_hit (P.state list.now).rest) }
{
    match list.here() {
        None => None,
        Some(hit) => Some(end_of(&hit)),
    }
}
