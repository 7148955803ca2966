//! Names in the order in which they came, each once, with a table that finds them.

ghost use Rattle.std.specs.Prelude.{◌≡◌, ◌<◌, ◌++◌, ◌∷◌, [], false, length, position, remove, IfOk, OnErr, OnOk};
ghost use Rattle.std.specs.List.{list_any, IsDistinct};
ghost use Rattle.std.specs.Str.{bytes_eq};

use ft_base::{Line, Memory};
use indexmap::IndexSet;
use std::alloc::Global;
use std::marker::Model;
use std::rc::Rc;

/// Names in the order in which they came, no two of them the same. Copies share them, and neither sees a change to the other.
#[derive(Drop)]
pub(crate) struct Names {
    // `None` where no name came yet.
    table: Option<Rc<IndexSet<Line>>>,
}

impl Model for Names {
    ghost use Rattle.std.specs.Prelude.{ℕ, List, []};
    ghost use Rattle.std.specs.Option.{option_map_or};

    ghost Value = { List (List ℕ) };

    ghost view = { λ inside. option_map_or (λ shared. shared.value.keys) inside.table [] };
}

impl Names {
    /// No names.
    pub(crate) fn new() -> Names
        ensures { result ≡ [] }
    {
        Names { table: None }
    }

    /// The names, in order.
    pub(crate) fn as_slice(&self) -> &[Line]
        ensures names { result.now ≡ self.now }
        ensures distinct { IsDistinct bytes_eq self.now }
    {
        match &self.table {
            Some(table) => table.as_slice(),
            None => &[],
        }
    }

    /// The place of the name, counted from 0, if it is among them.
    pub(crate) fn position(&self, name: &Line) -> Option<usize>
        ensures { result ≡ position (bytes_eq name.now) self.now }
    {
        match &self.table {
            Some(table) => table.get_index_of(name),
            None => None,
        }
    }

    /// The same names once more; none is copied.
    pub(crate) fn share(&self) -> Result<Names, Memory>
        ensures { IfOk result (λ copy. copy ≡ self.now) }
    {
        let table = match &self.table {
            Some(table) => Some(table.clone()?),
            None => None,
        };
        Ok(Names { table })
    }

    /// Puts a name that isn't among them after the last one. Names that others share are copied first, so that they keep theirs.
    pub(crate) fn push(&mut self, alloc: Global, name: Line) -> Result<(), Memory>
        requires { list_any (bytes_eq name) self.old ≡ false }
        ensures ok { OnOk result (self.new ≡ self.old ++ name ∷ []) }
        ensures err { OnErr result (self.new ≡ self.old) }
    {
        match &mut self.table {
            Some(table) => push_shared(alloc, table, name),
            None => {
                self.table = Some(Rc::new(alloc, with_name(alloc, &[], name)?)?);
                Ok(())
            }
        }
    }

    /// Takes the name at that place out. Names that others share are copied first, so that they keep theirs.
    pub(crate) fn remove(&mut self, alloc: Global, at: usize) -> Result<(), Memory>
        requires { at < length self.old }
        ensures ok { OnOk result (self.new ≡ remove self.old at) }
        ensures err { OnErr result (self.new ≡ self.old) }
    {
        match &mut self.table {
            Some(table) => remove_shared(alloc, table, at),
            None => Ok(()),
        }
    }
}

/// Puts a new name after the others of a table that may be shared.
fn push_shared(alloc: Global, table: &mut Rc<IndexSet<Line>>, name: Line) -> Result<(), Memory>
    requires { list_any (bytes_eq name) table.old.value.keys ≡ false }
    ensures ok { OnOk result (table.new.value.keys ≡ table.old.value.keys ++ name ∷ []) }
    ensures err { OnErr result (table.new.value.keys ≡ table.old.value.keys) }
{
    match Rc::get_mut(table) {
        Some(own) => {
            own.insert(name)?;
            Ok(())
        }
        None => {
            *table = Rc::new(alloc, with_name(alloc, table.as_slice(), name)?)?;
            Ok(())
        }
    }
}

/// Takes the name at that place out of a table that may be shared.
fn remove_shared(alloc: Global, table: &mut Rc<IndexSet<Line>>, at: usize) -> Result<(), Memory>
    ensures ok { OnOk result (table.new.value.keys ≡ remove table.old.value.keys at) }
    ensures err { OnErr result (table.new.value.keys ≡ table.old.value.keys) }
{
    match Rc::get_mut(table) {
        Some(own) => {
            own.shift_remove_index(at);
            Ok(())
        }
        None => {
            *table = Rc::new(alloc, without_name(alloc, table.as_slice(), at)?)?;
            Ok(())
        }
    }
}

/// A table of these names and one more.
fn with_name(alloc: Global, names: &[Line], name: Line) -> Result<IndexSet<Line>, Memory>
    requires distinct { IsDistinct bytes_eq names.now }
    requires new { list_any (bytes_eq name) names.now ≡ false }
    ensures { IfOk result (λ table. table.keys ≡ names.now ++ name ∷ []) }
{
    let mut table = table_of(alloc, names)?;
    table.insert(name)?;
    Ok(table)
}

/// A table of these names without the one at that place.
fn without_name(alloc: Global, names: &[Line], at: usize) -> Result<IndexSet<Line>, Memory>
    requires { IsDistinct bytes_eq names.now }
    ensures { IfOk result (λ table. table.keys ≡ remove names.now at) }
{
    let mut table = table_of(alloc, names)?;
    table.shift_remove_index(at);
    Ok(table)
}

/// A table of copies of these names.
fn table_of(alloc: Global, names: &[Line]) -> Result<IndexSet<Line>, Memory>
    requires { IsDistinct bytes_eq names.now }
    ensures { IfOk result (λ table. table.keys ≡ names.now) }
{
    let mut table = IndexSet::with_capacity(alloc, names.len())?;
    for name in names {
        table.insert(Line::read(alloc, name.as_str())?)?;
    }
    Ok(table)
}
