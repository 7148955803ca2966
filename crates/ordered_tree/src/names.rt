//! Names of elements that were seen in a document, so that its elements of one name share it.

ghost use Rattle.std.specs.Prelude.{◌≡◌, IfOk, IfSome};

use crate::shared_name::SharedName;
use crate::slot_core::same_text;
use ft_base::{Line, Memory};
use std::alloc::Global;

/// How many names are kept at once, at most.
const PLACES: usize = 64;

/// The names that were seen last, each at a place that follows from its bytes.
#[derive(Drop)]
pub(crate) struct Names {
    seen: Vec<Option<SharedName>>,
}

impl Names {
    /// None so far.
    pub(crate) fn new(alloc: Global) -> Names {
        Names {
            seen: Vec::new(alloc),
        }
    }

    /// The name, in the memory of one that was seen where that one is the same.
    pub(crate) fn share(&mut self, alloc: Global, name: Line) -> Result<SharedName, Memory>
        ensures { IfOk result (λ shared. shared ≡ name) }
    {
        let place = place_of(name.as_str());
        if let Some(shared) = self.find(place, name.as_str())? {
            return Ok(shared);
        }
        let shared = SharedName::new(alloc, name)?;
        self.keep(place, shared.share()?)?;
        Ok(shared)
    }

    /// The name at that place, where it is this one.
    fn find(&self, place: usize, name: &str) -> Result<Option<SharedName>, Memory>
        ensures { IfOk result (λ found. IfSome found (λ shared. shared ≡ name.now)) }
    {
        let Some(Some(seen)) = self.seen.get(place) else {
            return Ok(None);
        };
        if !same_text(seen.as_str(), name) {
            return Ok(None);
        }
        Ok(Some(seen.share()?))
    }

    /// Puts the name at that place.
    fn keep(&mut self, place: usize, name: SharedName) -> Result<(), Memory> {
        while self.seen.len() < PLACES {
            self.seen.push(None)?;
        }
        if let Some(seen) = self.seen.get_mut(place) {
            *seen = Some(name);
        }
        Ok(())
    }
}

/// The place of a name: names that stand often in one document mostly differ in their length, their first or their last byte.
fn place_of(name: &str) -> usize {
    let bytes = name.as_bytes();
    match (bytes.first(), bytes.last()) {
        (Some(first), Some(last)) => {
            (bytes.len() % PLACES + *first as usize * 7 + *last as usize * 3) % PLACES
        }
        _ => 0,
    }
}
