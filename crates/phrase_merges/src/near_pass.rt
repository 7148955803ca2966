//! Whether phrases stand in windows and scopes as nested as one likes.

ghost use Rattle.std.specs.Prelude.{◌≡◌, ◌≤◌, true};
ghost use Rattle.std.specs.List.{list_all};
ghost use Rattle.all_matches.specs.Boolean.{satisfied};
ghost use Rattle.all_matches.specs.Ways.{matches_of};
ghost use Rattle.ft_operators.specs.Walk.{own_span};
ghost use Rattle.phrase_merges.specs.Near.{AreTold};
ghost use Rattle.phrase_merges.specs.NearTrees.{near_aims, near_lists};
ghost use Rattle.phrase_merges.specs.Rows.{hits_there, is_rising};

use crate::near_aiming::aim;
use crate::near_tree::NearTree;
use crate::passing::pass;
use ft_base::{DocId, Span, Steps};
use ft_operators::PhraseHits;
use std::sync::ledger::Ledger;

/// Whether the selection is satisfied in the span of the document: whether the hits of its phrases can be chosen so that they lie
/// in its windows and scopes.
///
/// It goes through the ends of the hits once, from the first to the last. Of each part of the selection only the latest start of what
/// ends there or before is kept: what fits into a window with an earlier start fits with a later one.
pub fn stand_near_at<P: PhraseHits + Drop, L: Ledger>(
    tree: &mut NearTree<P>,
    doc: DocId,
    span: Span,
    steps: &mut Steps<L>,
) -> bool
    requires may { (near_aims P.state tree.old).may doc.0 span ≡ true }
    requires rising { list_all (λ aims. is_rising (aims.hits doc.0 span)) (near_lists P.state tree.old) ≡ true }
    requires told { AreTold (hits_there doc.0 span (near_lists P.state tree.old)) }
    ensures says { result ≡ satisfied (matches_of (own_span span) ((near_aims P.state tree.old).operators doc.0 span)) }
    ensures aims { near_aims P.state tree.new ≡ near_aims P.state tree.old }
    ensures lists { near_lists P.state tree.new ≡ near_lists P.state tree.old }
    ensures grown { steps.old ≤ steps.new }
{
    let mut next = aim(tree, doc, span, steps);
    while let Some(end) = next {
        let passed = pass(tree, end, steps);
        if passed.start.is_some() {
            return true;
        }
        next = passed.next;
    }
    false
}
