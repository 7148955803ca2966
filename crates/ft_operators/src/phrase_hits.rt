ghost use Rattle.std.specs.Prelude.{◌≡◌, ◌≤◌, true};
ghost use Rattle.ft_operators.specs.Phrases.{PhraseState, first_hit, at_first, at_first_in, one_further, aimed_at};

use crate::Bounds;
use ft_base::{DocId, Hit, Span, Steps};
use std::sync::ledger::Ledger;

/// The hits of one phrase in the span of a document at which it is aimed, and a place in their list.
///
/// The hits are told in the span's own numbers: its words, sentences and paragraphs count from 1. No call takes memory.
pub trait PhraseHits {
    /// Where it may be aimed and which hits it has there, which never changes; the list that it has now, and what is
    /// left of it from the place on.
    ghost state: { Self → PhraseState };

    /// The hit at the place, and `None` exactly at the end of the list.
    fn here(&self) -> Option<Hit>
        ensures hit { result ≡ first_hit ((state self.now).rest) };

    /// Goes to the first hit.
    fn first<L: Ledger>(&mut self, steps: &mut Steps<L>)
        ensures moved { state self.new ≡ at_first (state self.old) }
        ensures grown { steps.old ≤ steps.new };

    /// Goes to the first hit that lies in the bounds, and leaves the others out of what is left.
    fn first_in<L: Ledger>(&mut self, bounds: &Bounds, steps: &mut Steps<L>)
        ensures moved { state self.new ≡ at_first_in bounds.now (state self.old) }
        ensures grown { steps.old ≤ steps.new };

    /// Goes one hit on. At the end it stays there.
    fn next<L: Ledger>(&mut self, steps: &mut Steps<L>)
        ensures moved { state self.new ≡ one_further (state self.old) }
        ensures grown { steps.old ≤ steps.new };

    /// Aims it at a span of a document, and goes to the first hit there.
    fn aim<L: Ledger>(&mut self, doc: DocId, span: Span, steps: &mut Steps<L>)
        requires { (state self.old).aims.may doc.0 span ≡ true }
        ensures moved { state self.new ≡ aimed_at doc.0 span (state self.old) }
        ensures grown { steps.old ≤ steps.new };
}
