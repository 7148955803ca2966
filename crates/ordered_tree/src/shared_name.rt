//! Names of elements, which the trees of a document share.

ghost use Rattle.std.specs.Prelude.{◌≡◌, IfOk};

use ft_base::{Line, Memory};
use std::alloc::Global;
use std::marker::Model;
use std::rc::Rc;

/// The name of an element. Copies share it, and contracts see the list of its UTF-8 bytes.
#[derive(Drop)]
pub struct SharedName {
    name: Rc<Line>,
}

impl Model for SharedName {
    ghost use Rattle.std.specs.Prelude.{List, ℕ};

    ghost Value = { List ℕ };

    ghost view = { λ inside. inside.name.value };
}

impl SharedName {
    /// The name in its memory.
    pub fn new(alloc: Global, name: Line) -> Result<SharedName, Memory>
        ensures { IfOk result (λ shared. shared ≡ name) }
    {
        let name = Rc::new(alloc, name)?;
        Ok(SharedName { name })
    }

    /// The same name once more; nothing of it is copied.
    pub fn share(&self) -> Result<SharedName, Memory>
        ensures { IfOk result (λ copy. copy ≡ self.now) }
    {
        let name = self.name.clone()?;
        Ok(SharedName { name })
    }

    /// The name.
    pub fn as_str(&self) -> &str
        ensures { result.now ≡ self.now }
    {
        self.name.as_str()
    }
}
