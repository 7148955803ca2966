ghost use Rattle.std.specs.Prelude.{◌≤◌, ◌+◌, IfOk, vec_capacity};

use ft_base::{Hit, Memory};
use std::alloc::Global;

/// Memory for as many hits as two parts have it together.
pub(crate) fn joined_memory(
    alloc: Global,
    left: &Vec<Hit>,
    right: &Vec<Hit>,
) -> Result<Vec<Hit>, Memory>
    ensures { IfOk result (λ held. vec_capacity left.now + vec_capacity right.now ≤ vec_capacity held) }
{
    let held = Vec::with_capacity(alloc, left.capacity() + right.capacity())?;
    Ok(held)
}
