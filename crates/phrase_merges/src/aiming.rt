//! Aiming the lists of phrases at a span of a document.

ghost use Rattle.std.specs.Prelude.{◌≡◌, ◌≤◌, map, true};
ghost use Rattle.std.specs.List.{list_all};
ghost use Rattle.phrase_merges.specs.Rows.{aims_of, all_aims, all_hits, all_may, all_rising, hits_there, rise_there};

use ft_base::{DocId, Span, Steps};
use ft_operators::PhraseHits;
use std::sync::ledger::Ledger;

/// Aims all lists of each phrase at the span of the document.
pub fn aim_all<P: PhraseHits, L: Ledger>(
    phrases: &mut Vec<Vec<P>>,
    doc: DocId,
    span: Span,
    steps: &mut Steps<L>,
)
    requires may { all_may doc.0 span (all_aims P.state phrases.old.items) ≡ true }
    requires rising { rise_there doc.0 span (all_aims P.state phrases.old.items) ≡ true }
    ensures hits { all_hits P.state phrases.new.items ≡ map (hits_there doc.0 span) (all_aims P.state phrases.old.items) }
    ensures rises { all_rising P.state phrases.new.items ≡ true }
    ensures aims { all_aims P.state phrases.new.items ≡ all_aims P.state phrases.old.items }
    ensures grown { steps.old ≤ steps.new }
{
    for number in 0..phrases.len() {
        aim_each(&mut phrases[number], doc, span, steps);
    }
}

fn aim_each<P: PhraseHits, L: Ledger>(
    sources: &mut Vec<P>,
    doc: DocId,
    span: Span,
    steps: &mut Steps<L>,
)
    requires { list_all (λ aims. aims.may doc.0 span) (aims_of P.state sources.old.items) ≡ true }
    ensures hits { map (λ source. (P.state source).rest) sources.new.items ≡ map (λ aims. aims.hits doc.0 span) (aims_of P.state sources.old.items) }
    ensures aims { aims_of P.state sources.new.items ≡ aims_of P.state sources.old.items }
    ensures grown { steps.old ≤ steps.new }
{
    for number in 0..sources.len() {
        sources[number].aim(doc, span, steps);
    }
}
