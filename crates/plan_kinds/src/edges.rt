//! Which selections with filters ask that a phrase stands at an edge of the text.

ghost use Rattle.std.specs.Prelude.{◌≡◌, option_map};
ghost use Rattle.plan_kinds.specs.steps.PlacedPhrases as spec;

use crate::phrases::{filtered_of, phrase_of};
use ft_base::Filter;
use plan_compiler::{FilteredPlan, OperatorPlan, PhraseTests};
use spot_merges::Edge;

/// The edge of the text and the phrase that has to stand there, where the selection is `at start`, `at end` or `entire content` over one
/// phrase.
pub fn edge_of(plan: &OperatorPlan) -> Option<(Edge, &PhraseTests)>
    ensures { option_map (λ found. (found.0, found.1.now)) result ≡ spec.edge_of plan.now }
{
    match filtered_of(plan) {
        None => None,
        Some(filtered) => filtered_edge(filtered),
    }
}

fn filtered_edge(plan: &FilteredPlan) -> Option<(Edge, &PhraseTests)>
    ensures { option_map (λ found. (found.0, found.1.now)) result ≡ spec.filtered_edge plan.now }
{
    match filter_edge(plan.kind) {
        None => None,
        Some(edge) => match phrase_of(&plan.operand) {
            None => None,
            Some(phrase) => Some((edge, phrase)),
        },
    }
}

fn filter_edge(filter: Filter) -> Option<Edge>
    ensures { result ≡ spec.filter_edge filter }
{
    match filter {
        Filter::AtStart => Some(Edge::Start),
        Filter::AtEnd => Some(Edge::End),
        Filter::EntireContent => Some(Edge::Both),
        _ => None,
    }
}
