//! Which selections with filters are decided by going through the hits of their words.

ghost use Rattle.std.specs.Prelude.{◌≡◌, option_map};
ghost use Rattle.plan_kinds.specs.steps.MergeKinds as spec;
ghost use Rattle.plan_kinds.specs.steps.JoinedPhrases.{joined_of, kind_over};

use crate::joined::Joined;
use crate::joining::{are_two, joined_of};
use crate::merge_kind::MergeKind;
use crate::phrases::filtered_of;
use ft_base::{Filter, Range, Unit};
use plan_compiler::{FilteredPlan, OperatorPlan};

/// How the words have to stand, and the operand that joins them, where a merge decides the selection: a window in words, `ordered`, `same
/// sentence` or `same paragraph` over single words that are joined by `ftand`, or a distance of at most so many words over two of them.
pub fn merge_of(plan: &OperatorPlan) -> Option<(MergeKind, &OperatorPlan)>
    ensures { option_map (λ merge. (merge.0, merge.1.now)) result ≡ spec.merge_of plan.now }
{
    match filtered_of(plan) {
        None => None,
        Some(filtered) => filtered_merge(filtered),
    }
}

fn filtered_merge(plan: &FilteredPlan) -> Option<(MergeKind, &OperatorPlan)>
    ensures { option_map (λ merge. (merge.0, merge.1.now)) result ≡ kind_over spec.merge_kind plan.now (joined_of plan.now.operand) }
{
    let operand = &plan.operand;
    match joined_of(operand) {
        None => None,
        Some(joined) => match merge_kind(plan.kind, joined) {
            None => None,
            Some(kind) => Some((kind, operand)),
        },
    }
}

fn merge_kind(filter: Filter, joined: Joined) -> Option<MergeKind>
    ensures { result ≡ spec.merge_kind filter joined }
{
    if joined.are_words {
        words_kind(filter, joined)
    } else {
        None
    }
}

fn words_kind(filter: Filter, joined: Joined) -> Option<MergeKind>
    ensures { result ≡ spec.words_kind filter joined }
{
    match filter {
        Filter::Ordered => Some(MergeKind::InOrder),
        Filter::Window(size, Unit::Words) => Some(MergeKind::Close(size)),
        Filter::Distance(range, unit) => distance_kind(range, unit, joined),
        Filter::SameSentence => Some(MergeKind::InSentence),
        Filter::SameParagraph => Some(MergeKind::InParagraph),
        _ => None,
    }
}

fn distance_kind(range: Range, unit: Unit, joined: Joined) -> Option<MergeKind>
    ensures { result ≡ spec.distance_kind range unit joined }
{
    match range {
        Range::Exactly(_size) => None,
        Range::AtLeast(_size) => None,
        Range::AtMost(size) => match unit {
            Unit::Words => pair_kind(size, joined),
            Unit::Sentences => None,
            Unit::Paragraphs => None,
        },
        Range::FromTo(_low, _high) => None,
    }
}

/// Two words at most so far apart stand among two words more.
fn pair_kind(size: u32, joined: Joined) -> Option<MergeKind>
    ensures { result ≡ spec.pair_kind size joined }
{
    if are_two(joined) && size < u32::MAX - 1 {
        Some(MergeKind::Close(size + 2))
    } else {
        None
    }
}
