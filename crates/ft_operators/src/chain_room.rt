ghost use Rattle.std.specs.Prelude.{◌≡◌, ◌≤◌, ◌+◌, max, vec_capacity, IfSome};

use ft_base::Hit;

/// For how many filters, and for how many includes before them, a chain must have room where it is asked whether a
/// way is clean.
#[derive(Clone, Copy)]
pub(crate) struct ChainRoom {
    pub(crate) filters: usize,
    pub(crate) hits: usize,
}

/// That of a selection without filters.
pub(crate) fn no_room() -> ChainRoom
    ensures { result ≡ record { filters = 0; hits = 0 } }
{
    ChainRoom {
        filters: 0,
        hits: 0,
    }
}

/// That of two operands, of which one is asked after the other.
pub(crate) fn wider(left: ChainRoom, right: ChainRoom) -> ChainRoom
    ensures filters { result.filters ≡ max left.filters right.filters }
    ensures hits { result.hits ≡ max left.hits right.hits }
{
    ChainRoom {
        filters: left.filters.max(right.filters),
        hits: left.hits.max(right.hits),
    }
}

/// That of an operand after one more filter, where its includes find room in this memory. `None` where either count, which is of 64
/// bits, is at its end: no memory has a chain of so many.
pub(crate) fn with_filter(operand: ChainRoom, held: &Vec<Hit>) -> Option<ChainRoom>
    ensures { IfSome result (λ room. (operand.filters + 1 ≤ room.filters) × (operand.hits + vec_capacity held.now ≤ room.hits)) }
{
    let filters = operand.filters.checked_add(1)?;
    let hits = operand.hits.checked_add(held.capacity())?;
    Some(ChainRoom { filters, hits })
}
