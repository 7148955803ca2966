ghost use Rattle.std.specs.Prelude.{◌≡◌, [], IfOk};

use ft_base::Memory;
use std::alloc::Global;
use std::marker::Model;
use std::rc::Rc;
use word_lists::KeySet;

/// The keys of words directly behind which a period ends no sentence. Copies share the set.
#[derive(Drop)]
pub(crate) struct Abbreviations {
    // `None` where no set came yet, so that a collection without abbreviations needs no memory.
    shared: Option<Rc<KeySet>>,
    // What is lent then.
    empty: KeySet,
}

impl Model for Abbreviations {
    ghost use Rattle.std.specs.Prelude.{◌≡◌, ℕ, List, []};
    ghost use Rattle.std.specs.Option.{option_map_or};

    ghost Value = { List (List ℕ) };

    ghost view = { λ inside. option_map_or (λ set. set.value) inside.shared [] };

    ghost invariant = { λ inside. inside.empty ≡ [] };
}

impl Abbreviations {
    /// No abbreviations.
    pub(crate) fn empty(alloc: Global) -> Abbreviations
        ensures { result ≡ [] }
    {
        Abbreviations {
            shared: None,
            empty: KeySet::empty(alloc),
        }
    }

    /// The abbreviations of a set.
    pub(crate) fn of(alloc: Global, set: KeySet) -> Result<Abbreviations, Memory>
        ensures { IfOk result (λ made. made ≡ set) }
    {
        let shared = Rc::new(alloc, set)?;
        Ok(Abbreviations {
            shared: Some(shared),
            empty: KeySet::empty(alloc),
        })
    }

    /// The same abbreviations once more; none is copied.
    pub(crate) fn share(&self, alloc: Global) -> Result<Abbreviations, Memory>
        ensures { IfOk result (λ copy. copy ≡ self.now) }
    {
        let shared = match &self.shared {
            Some(set) => Some(set.clone()?),
            None => None,
        };
        Ok(Abbreviations {
            shared,
            empty: KeySet::empty(alloc),
        })
    }

    /// The set of their keys.
    pub(crate) fn as_set(&self) -> &KeySet
        ensures { result.now ≡ self.now }
    {
        match &self.shared {
            Some(set) => &**set,
            None => &self.empty,
        }
    }
}
