//! Up to where a part of a document has no Match of a selection with filters or `not in`.

ghost use Rattle.std.specs.Prelude.{◌≡◌, ◌≤◌};
ghost use Rattle.plan_runs.specs.steps.Skips as spec;
ghost use Rattle.plan_runs.specs.steps.Skips.{skip_of};

use crate::needs::Needs;
use crate::skipping::variants_skip;
use ft_base::{DocId, Span, Steps};
use index_versions::sooner;
use std::sync::ledger::Ledger;

/// A place up to which the part can be skipped, as `skip` tells it: in no span of the part that ends there or before it does the
/// selection have a Match.
#[cycle(needs_skips)]
pub(crate) fn needs_skip<L: Ledger>(
    doc: DocId,
    part: Span,
    needs: &Needs<'_>,
    moves: &mut Steps<L>,
) -> Option<u32>
    ensures says { result ≡ skip_of needs.now doc.0 part }
    ensures grown { moves.old ≤ moves.new }
{
    match needs {
        Needs::Nothing => Some(0),
        Needs::Phrase(variants) => variants_skip(doc, part, variants, moves),
        Needs::OneOf(sides) => {
            let left = needs_skip(doc, part, &sides.left, moves);
            let right = needs_skip(doc, part, &sides.right, moves);
            sooner(left, right)
        }
        Needs::AllOf(sides) => {
            let left = needs_skip(doc, part, &sides.left, moves);
            let right = needs_skip(doc, part, &sides.right, moves);
            later(left, right)
        }
    }
}

/// The place after the other; there is none where one of them isn't there.
fn later(first: Option<u32>, second: Option<u32>) -> Option<u32>
    ensures { result ≡ spec.later first second }
{
    match (first, second) {
        (None, _) => None,
        (Some(_), None) => None,
        (Some(a), Some(b)) => Some(a.max(b)),
    }
}
