//! Phrases that have to stand somewhere, opened over a version of the index.

ghost use Rattle.std.specs.Prelude.{◌≡◌, map, IfOk};
ghost use Rattle.plan_runs.specs.steps.OpenedItems.{opened_variant};
ghost use Rattle.plan_runs.specs.steps.OpenedWords.{opened_group};
ghost use Rattle.plan_runs.specs.steps.RunShapes.{at_edge, outside, placed_shape};

use crate::choosing::Opening;
use crate::opening::{open_group, open_variants};
use crate::run_placed::{ApartPhrases, EdgePhrase, RunPlaced};
use ft_base::Memory;
use plan_compiler::PhraseTests;
use spot_merges::{Edge, Outside};
use std::mem::drop;

/// The phrase opened to stand at the edge.
pub(crate) fn open_at_edge<'v>(
    opening: &Opening<'v>,
    edge: Edge,
    phrase: &PhraseTests,
) -> Result<RunPlaced<'v>, Memory>
    ensures { IfOk result (λ run. placed_shape run ≡ at_edge edge
        (map (opened_variant opening.now.looks opening.now.lists.now.stems opening.now.version.now) phrase.now.variants)) }
{
    let variants = open_variants(opening, phrase.variants.as_slice())?;
    Ok(RunPlaced::AtEdge(EdgePhrase { edge, variants }))
}

/// The phrases opened so that the first stands outside the second.
pub(crate) fn open_outside<'v>(
    opening: &Opening<'v>,
    kind: Outside,
    left: &PhraseTests,
    right: &PhraseTests,
) -> Result<RunPlaced<'v>, Memory>
    ensures { IfOk result (λ run. placed_shape run
        ≡ outside kind (opened_group opening.now.looks opening.now.lists.now.stems opening.now.version.now left.now.variants)
        (opened_group opening.now.looks opening.now.lists.now.stems opening.now.version.now right.now.variants)) }
{
    let first = open_group(opening, left.variants.as_slice())?;
    match open_group(opening, right.variants.as_slice()) {
        Ok(second) => Ok(RunPlaced::Apart(ApartPhrases {
            outside: kind,
            left: first,
            right: second,
        })),
        Err(memory) => {
            drop(first);
            Err(memory)
        }
    }
}
