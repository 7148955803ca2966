//! Watches: paths by their names, each with what it answered last.

ghost use Rattle.std.specs.Prelude.{◌≡◌, [], bytes_eq, true, IfOk, OnErr, OnOk};
ghost use Rattle.std.specs.Map.{lookup, remove_entry};
ghost use Rattle.std.specs.Option.{option_copied};
ghost use Rattle.indexmap.specs.IndexMap.{insert_entry};
ghost use Rattle.session_state.specs.KeptWatches.{watches_of};
ghost use Rattle.session_state.specs.Watches.{watch_refusal, watch_taken};
ghost use Rattle.reply_lines.specs.Replies.{is_refusal};

use crate::marks::no_such_name;
use ft_base::{Line, Memory};
use indexmap::IndexMap;
use reply_lines::{FullOf, MAX_WATCHES, Refusal, Reply};
use standing_queries::Standing;
use std::alloc::Global;
use std::marker::Model;

/// A path that is watched, and the lines that it answered last, document by document.
#[derive(Drop)]
pub(crate) struct KeptWatch {
    pub(crate) path: Line,
    pub(crate) standing: Standing,
}

/// The watches by their names, in the order in which they were set.
#[derive(Drop)]
pub(crate) struct Watches {
    alloc: Global,
    kept: IndexMap<Line, KeptWatch>,
}

impl Model for Watches {
    ghost use Rattle.std.specs.Prelude.{ℕ, List};
    ghost use Rattle.session_state.specs.declared.watches.KeptWatch.{KeptWatch};

    ghost Value = { List (List ℕ × KeptWatch) };

    ghost view = { λ watches. watches.kept.entries };
}

impl Watches {
    /// No watches.
    pub(crate) fn new(alloc: Global) -> Watches
        ensures { result ≡ [] }
    {
        Watches {
            alloc,
            kept: IndexMap::new(alloc),
        }
    }

    /// The watch of the name, if there is one.
    pub(crate) fn get(&self, name: &Line) -> Option<&KeptWatch>
        ensures { option_copied result ≡ lookup (bytes_eq name.now) self.now }
    {
        self.kept.get(name)
    }

    /// Why no watch can be set under the name, if none can: there is one of that name, or there are as many as there may be.
    pub(crate) fn refusal(&self, name: &Line) -> Result<Option<Refusal>, Memory>
        ensures { IfOk result (λ why. why ≡ watch_refusal name.now (watches_of self.now)) }
    {
        if self.kept.contains_key(name) {
            let name = Line::read(self.alloc, name.as_str())?;
            return Ok(Some(Refusal::NameTaken { name }));
        }
        if self.kept.len() >= MAX_WATCHES {
            let what = FullOf::Watches;
            return Ok(Some(Refusal::Full { what }));
        }
        Ok(None)
    }

    /// Puts a watch under the name, in the place of the one that has it, or after the others.
    pub(crate) fn put(&mut self, name: &Line, watch: KeptWatch) -> Result<(), Memory>
        ensures ok { OnOk result (self.new ≡ insert_entry bytes_eq self.old name.now watch) }
        ensures err { OnErr result (self.new ≡ self.old) }
    {
        let Ok(name) = Line::read(self.alloc, name.as_str()) else {
            drop(watch);
            return Err(Memory);
        };
        let Ok(before) = self.kept.insert(name, watch) else {
            return Err(Memory);
        };
        drop(before);
        Ok(())
    }

    /// Gives the watch of the name up, unless there is none.
    pub(crate) fn remove(&mut self, name: &Line) -> Result<Reply, Memory>
        ensures answer { IfOk result (λ reply. (watches_of self.new, reply) ≡ watch_taken (watches_of self.old) name.now) }
        ensures fewer { self.new ≡ remove_entry (bytes_eq name.now) self.old }
        ensures err { OnErr result (self.new ≡ self.old) }
        ensures refused { IfOk result (λ reply. is_refusal reply ≡ true → self.new ≡ self.old) }
    {
        let Some(watch) = self.kept.shift_remove(name) else {
            return no_such_name(self.alloc, name);
        };
        drop(watch);
        Ok(Reply::Done)
    }
}
