ghost use Rattle.std.specs.Prelude.{◌≡◌, IfOk};

use ft_base::Memory;
use std::alloc::Global;
use std::marker::Model;
use std::rc::Rc;
use text_list::TextList;

/// Lines that may be held at several places.
#[derive(Drop)]
pub struct SharedLines {
    shared: Rc<TextList>,
}

impl Model for SharedLines {
    ghost use Rattle.std.specs.Prelude.{List, ℕ};
    ghost use Rattle.std.specs.Coded.{coded_list, coded_ℕ};

    ghost Value = { List (List ℕ) };

    ghost coded = { coded_list (coded_list coded_ℕ) };

    ghost view = { λ lines. lines.shared.value };
}

impl SharedLines {
    /// The lines, which from now on are shared.
    pub fn new(alloc: Global, lines: TextList) -> Result<SharedLines, Memory>
        ensures { IfOk result (λ shared. shared ≡ lines) }
    {
        let shared = Rc::new(alloc, lines)?;
        Ok(SharedLines { shared })
    }

    /// The same lines once more; none is copied.
    pub fn share(&self) -> Result<SharedLines, Memory>
        ensures { IfOk result (λ same. same ≡ self.now) }
    {
        let shared = self.shared.clone()?;
        Ok(SharedLines { shared })
    }

    /// The lines.
    pub fn lines(&self) -> &TextList
        ensures { result.now ≡ self.now }
    {
        &self.shared
    }
}
