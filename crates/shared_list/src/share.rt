ghost use Rattle.std.specs.Prelude.{◌≡◌, IfOk};

use ft_base::Memory;
use std::alloc::Global;

/// What the items of a shared list can do: a block of them that two lists share is copied before one of the lists
/// changes it.
pub trait Share: Drop {
    /// Copies of the items, in order.
    fn copies(alloc: Global, items: &[Self]) -> Result<Vec<Self>, Memory>
        ensures { IfOk result (λ copies. copies.items ≡ items.now) };
}

impl Share for u32 {
    fn copies(alloc: Global, items: &[u32]) -> Result<Vec<u32>, Memory> {
        Ok(Vec::from_slice(alloc, items)?)
    }
}
