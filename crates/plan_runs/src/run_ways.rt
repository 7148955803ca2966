ghost use Rattle.std.specs.Prelude.{◌≡◌, ◌≤◌, []};
ghost use Rattle.ft_operators.specs.Chains.{links_of, spare_filters, spare_hits};
ghost use Rattle.ft_operators.specs.Tuples.{room_of};

use crate::needs::Needs;
use ft_operators::{Chain, Tuples};
use index_phrases::PhraseCursor;

/// A selection with filters or `not in`, opened over a version: a walk through its ways, a chain of filters with the room that the walk
/// needs, and what the selection needs of a document.
#[derive(Drop)]
pub(crate) struct RunWays<'v> {
    pub(crate) tuples: Tuples<PhraseCursor<'v>>,
    pub(crate) chain: Chain,
    pub(crate) needs: Needs<'v>,
    ghost none: { links_of chain ≡ [] },
    ghost filters: { (room_of tuples).filters ≤ spare_filters chain },
    ghost hits: { (room_of tuples).hits ≤ spare_hits chain },
}
