//! In which stretch of a document it is known that no span satisfies a selection.

ghost use Rattle.std.specs.Prelude.{◌≡◌, ◌≤◌, ◌<◌, ◌+◌, true};
ghost use Rattle.plan_runs.specs.steps.RuledOut.{part_from, place_of};
ghost use Rattle.plan_runs.specs.steps.CheapShapes.{is_cheap_shape};
ghost use Rattle.plan_runs.specs.steps.RunCosts.{run_cost, term_count};
ghost use Rattle.plan_runs.specs.steps.RunShapes.{shape};
ghost use Rattle.plan_runs.specs.steps.RunSkips as spec;

use crate::run_node::RunNode;
use crate::skipping::skip;
use ft_base::{DocId, Span, Steps};
use std::sync::ledger::Ledger;

/// How many times as long as the span that was tested a stretch has to be to have been worth asking for: an answer costs about as much
/// as a test.
const ENOUGH: u32 = 3;

/// A stretch of the document that was looked up or tested last, from `from` on and before `to`: no span of the document in it satisfies
/// the selection, nor does what is left of one.
#[derive(Clone, Copy)]
pub(crate) struct RuledOut {
    pub(crate) doc: DocId,
    pub(crate) from: u32,
    pub(crate) to: u32,
    /// How many answers ruled out little, less half of them for each that ruled out much: where many spans satisfy the selection, few
    /// are worth asking
    vain: u32,
    /// After how many tests to ask anew
    pause: u32,
}

impl RuledOut {
    /// Nothing is known so far.
    pub(crate) fn new() -> RuledOut
        ensures { result.to ≡ 0 }
    {
        RuledOut {
            doc: DocId(0),
            from: 0,
            to: 0,
            vain: 0,
            pause: 0,
        }
    }

    /// What is known of a document once it was looked up: where a word that is needed doesn't stand there, all of it is ruled out.
    pub(crate) fn looked_up(self, doc: DocId, may: bool) -> RuledOut
        ensures doc { result.doc.0 ≡ doc.0 }
        ensures to { may ≡ true → result.to ≡ 0 }
        ensures most { result.to ≤ 4294967295 }
    {
        RuledOut {
            doc,
            from: 0,
            to: if may { 0 } else { u32::MAX },
            vain: self.vain,
            pause: self.pause,
        }
    }

    /// The stretch that was asked for from the span's first position on.
    pub(crate) fn answered(self, doc: DocId, span: Span, to: u32) -> RuledOut
        ensures doc { result.doc.0 ≡ doc.0 }
        ensures from { result.from ≡ span.from }
        ensures to { result.to ≡ to }
    {
        let words = span.to.saturating_sub(span.from);
        let vain = if to.saturating_sub(span.from) >= words.saturating_mul(ENOUGH) {
            self.vain / 2
        } else {
            one_more(self.vain)
        };
        RuledOut {
            doc,
            from: span.from,
            to,
            vain,
            pause: pause_after(vain),
        }
    }

    /// Whether this test is one of those after which it isn't asked.
    pub(crate) fn pauses(&mut self) -> bool
        ensures doc { self.new.doc.0 ≡ self.old.doc.0 }
        ensures from { self.new.from ≡ self.old.from }
        ensures to { self.new.to ≡ self.old.to }
    {
        if self.pause == 0 {
            return false;
        }
        self.pause -= 1;
        true
    }

    /// Whether the span of the document is ruled out.
    pub(crate) fn holds(&self, doc: DocId, span: Span) -> bool
        ensures doc { result ≡ true → self.now.doc.0 ≡ doc.0 }
        ensures after { result ≡ true → self.now.from ≤ span.from }
        ensures ends_before { result ≡ true → span.to ≤ self.now.to }
    {
        self.doc.0 == doc.0 && self.from <= span.from && span.to <= self.to
    }

    /// Up to where the document is ruled out from a position on; 0 where it isn't known.
    pub(crate) fn skip_to(&self, doc: DocId, from: u32) -> u32
        ensures doc { 0 < result → self.now.doc.0 ≡ doc.0 }
        ensures after { 0 < result → self.now.from ≤ from }
        ensures to { 0 < result → result ≡ self.now.to }
    {
        if self.doc.0 == doc.0 && self.from <= from {
            self.to
        } else {
            0
        }
    }
}

/// One more, up to 8.
fn one_more(count: u32) -> u32 {
    if count < 8 { count + 1 } else { count }
}

/// How many tests to pass before it is asked anew, after so many answers that ruled out little: none after the first few, and then twice
/// as many after each.
fn pause_after(vain: u32) -> u32 {
    match vain {
        0..=3 => 0,
        4 => 4,
        5 => 8,
        6 => 16,
        7 => 32,
        _ => 64,
    }
}

/// Up to where no span of the document that starts at `from` or after satisfies an opened selection. 0 says nothing, and the greatest
/// number that nothing is left in the document.
pub(crate) fn skip_from<L: Ledger>(
    doc: DocId,
    from: u32,
    root: &RunNode<'_>,
    moves: &mut Steps<L>,
) -> u32
    ensures says { result ≡ place_of (spec.skip doc.0 (part_from from) (shape root.now)) }
    ensures price { is_cheap_shape true (shape root.now) ≡ true → moves.new ≤ moves.old + run_cost term_count 1 (shape root.now) }
    ensures grown { moves.old ≤ moves.new }
{
    let part = Span { from, to: u32::MAX };
    match skip(doc, part, root, moves) {
        Some(place) => place,
        None => u32::MAX,
    }
}
