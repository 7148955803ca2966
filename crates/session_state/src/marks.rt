//! Marks: the collection as it was when each was set, by their names.

ghost use Rattle.std.specs.Prelude.{◌≡◌, ◌++◌, ◌∷◌, [], bytes_eq, length, true, IfOk, None, OnErr, OnOk};
ghost use Rattle.std.specs.Map.{lookup};
ghost use Rattle.std.specs.Option.{option_copied};
ghost use Rattle.session_state.specs.KeptMarks.{marks_of, versions_of};
ghost use Rattle.session_state.specs.Marks.{mark_put, mark_taken, AreIndexesOf};
ghost use Rattle.reply_lines.specs.Replies.{is_refusal};

use document_store::Collection;
use ft_base::{Line, MAX_MARKS, Memory};
use indexmap::IndexMap;
use reply_lines::{FullOf, Refusal, Reply};
use std::alloc::Global;
use std::marker::Model;

/// The marks by their names, in the order in which they were set. Each keeps the collection as it was then.
#[derive(Drop)]
pub(crate) struct Marks {
    alloc: Global,
    kept: IndexMap<Line, Collection>,
}

impl Model for Marks {
    ghost use Rattle.std.specs.Prelude.{ℕ, List};
    ghost use Rattle.std.specs.List.{AllByRecursion};
    ghost use Rattle.document_store.specs.Indexed.{Indexed};
    ghost use Rattle.session_state.specs.KeptMarks.{marks_code, IsOwnIndex};

    ghost Value = { List (List ℕ × Indexed) };

    ghost coded = { marks_code };

    ghost view = { λ marks. marks.kept.entries };

    ghost invariant = { λ marks. AllByRecursion IsOwnIndex marks.kept.entries };
}

impl Marks {
    /// No marks.
    pub(crate) fn new(alloc: Global) -> Marks
        ensures { result ≡ [] }
    {
        Marks {
            alloc,
            kept: IndexMap::new(alloc),
        }
    }

    /// How many marks there are. The version of each is the index of its documents under its abbreviations.
    pub(crate) fn len(&self) -> usize
        ensures len { result ≡ length self.now }
        ensures indexed { AreIndexesOf (marks_of self.now) (versions_of self.now) }
    {
        self.kept.len()
    }

    /// The collection that is kept under the name, if there is such a mark.
    pub(crate) fn get(&self, name: &Line) -> Option<&Collection>
        ensures { option_copied result ≡ lookup (bytes_eq name.now) self.now }
    {
        self.kept.get(name)
    }

    /// Keeps the collection as it is under the name, unless there is a mark of that name or there are as many as there may be.
    pub(crate) fn put(&mut self, name: &Line, collection: &Collection) -> Result<Reply, Memory>
        ensures answer { IfOk result (λ reply. (marks_of self.new, reply)
            ≡ mark_put (marks_of self.old) name.now collection.now.documents collection.now.abbreviations) }
        ensures err { OnErr result (self.new ≡ self.old) }
        ensures refused { IfOk result (λ reply. is_refusal reply ≡ true → self.new ≡ self.old) }
    {
        let name = Line::read(self.alloc, name.as_str())?;
        if self.kept.contains_key(&name) {
            return Ok(Reply::Refused(Refusal::NameTaken { name }));
        }
        if self.kept.len() >= MAX_MARKS {
            let what = FullOf::Marks;
            return Ok(Reply::Refused(Refusal::Full { what }));
        }
        self.add(name, collection)
    }

    /// The same for a name that no mark has.
    fn add(&mut self, name: Line, collection: &Collection) -> Result<Reply, Memory>
        requires { lookup (bytes_eq name) self.old ≡ None }
        ensures answer { IfOk result (λ reply. reply ≡ Reply.Done) }
        ensures entries { OnOk result (self.new ≡ self.old ++ (name, collection.now) ∷ []) }
        ensures err { OnErr result (self.new ≡ self.old) }
    {
        // The version is the index of the documents under the abbreviations, as the clauses of `documents` say.
        let _documents = collection.documents();
        let Ok(copy) = collection.copy() else {
            drop(name);
            return Err(Memory);
        };
        let Ok(before) = self.kept.insert(name, copy) else {
            return Err(Memory);
        };
        drop(before);
        Ok(Reply::Done)
    }

    /// Gives the mark of the name up, unless there is none.
    pub(crate) fn remove(&mut self, name: &Line) -> Result<Reply, Memory>
        ensures answer { IfOk result (λ reply. (marks_of self.new, reply) ≡ mark_taken (marks_of self.old) name.now) }
        ensures err { OnErr result (self.new ≡ self.old) }
        ensures refused { IfOk result (λ reply. is_refusal reply ≡ true → self.new ≡ self.old) }
    {
        let Some(collection) = self.kept.shift_remove(name) else {
            return no_such_name(self.alloc, name);
        };
        drop(collection);
        Ok(Reply::Done)
    }
}

/// The refusal of a name that isn't there.
pub(crate) fn no_such_name(alloc: Global, name: &Line) -> Result<Reply, Memory>
    ensures { IfOk result (λ reply. reply ≡ Reply.Refused (Refusal.NoSuchName name.now)) }
{
    let name = Line::read(alloc, name.as_str())?;
    Ok(Reply::Refused(Refusal::NoSuchName { name }))
}
