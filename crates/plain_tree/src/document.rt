ghost use Rattle.std.specs.Prelude.{◌≡◌, ◌↔◌, Err, false, map, IfOk, IsTrue, OnErr, OnOk};
ghost use Rattle.plain_tree.specs.Document.{is_document, nodes};
ghost use Rattle.plain_tree.specs.Edits.{insertion, may_insert, names_inner, only, removal, replacement};
ghost use Rattle.plain_tree.specs.View.{node};
ghost use Rattle.plain_tree.specs.declared.place.PlaceFault.TheVariants.{NoSuchPlace};

use crate::change::{Change, Side};
use crate::copying::copy_tree;
use crate::editing::edit;
use crate::place::{How, Place, PlaceFault};
use crate::tree::{Kids, Tree};
use ft_base::Memory;
use std::alloc::Global;
use std::marker::Model;

/// A document: its root is an element, no text in it is empty, and no two texts stand side by side.
#[derive(Drop)]
pub struct PlainDoc {
    root: Tree,
}

impl Model for PlainDoc {
    ghost use Rattle.std.specs.Prelude.{IsTrue};
    ghost use Rattle.plain_tree.specs.Document.{Node, is_document};
    ghost use Rattle.plain_tree.specs.View.{node, node_code};

    ghost Value = { Node };

    ghost coded = { node_code };

    ghost view = { λ doc. node doc.root };

    ghost invariant = { λ doc. IsTrue (is_document (node doc.root)) };
}

impl PlainDoc {
    /// The document with this root.
    pub fn from_tree(root: Tree) -> PlainDoc
        requires { IsTrue (is_document (node root)) }
        ensures { result ≡ node root }
    {
        PlainDoc { root }
    }

    /// The root, which is an element.
    pub fn root(&self) -> &Tree
        ensures tree { node result.now ≡ self.now }
        ensures document { IsTrue (is_document self.now) }
    {
        &self.root
    }

    /// The root, which is an element, in its memory.
    pub fn into_tree(self) -> Tree
        ensures tree { node result ≡ self }
        ensures document { IsTrue (is_document self) }
    {
        self.root
    }

    /// The same document in memory of its own.
    pub fn copy(&self, alloc: Global) -> Result<PlainDoc, Memory>
        ensures { IfOk result (λ copy. copy ≡ self.now) }
    {
        let root = copy_tree(alloc, &self.root)?;
        Ok(PlainDoc { root })
    }

    /// Inserts content before the children of the element that the place names, after them, before the element or after
    /// it (XQuery Update Facility 1.0, 2.4.1). A text that comes beside a text is joined with it, in the content too, and an empty
    /// one is dropped. `NoSuchPlace` comes exactly where the place names no element, or names the root and the content would stand
    /// beside it. After a fault the document is as it was. It takes a copy of a text that is joined; other nodes are moved.
    pub fn insert_at(
        &mut self,
        alloc: Global,
        place: &Place,
        how: How,
        content: Kids,
    ) -> Result<(), PlaceFault>
        ensures edited { OnOk result (only self.new ≡ insertion how (nodes (map node content)) place.now self.old) }
        ensures kept { OnErr result (self.new ≡ self.old) }
        ensures no_such_place { result ≡ Err NoSuchPlace ↔ (may_insert how place.now self.old ≡ false) }
    {
        edit(
            alloc,
            &mut self.root,
            place.as_slice(),
            Change::insertion(how),
            content,
        )
    }

    /// Takes out the element that the place names, with all that is below it (XQuery Update Facility 1.0, 2.4.2), and joins the texts
    /// on its two sides. `NoSuchPlace` comes exactly where the place names no element, or the root. After a fault the document is as
    /// it was.
    pub fn remove_at(&mut self, alloc: Global, place: &Place) -> Result<(), PlaceFault>
        ensures edited { OnOk result (only self.new ≡ removal place.now self.old) }
        ensures kept { OnErr result (self.new ≡ self.old) }
        ensures no_such_place { result ≡ Err NoSuchPlace ↔ (names_inner place.now self.old ≡ false) }
    {
        self.replace_at(alloc, place, Kids::new(alloc))
    }

    /// Puts content in the place of the element that the place names (XQuery Update Facility 1.0, 2.4.3), with texts joined as by
    /// `insert_at`. `NoSuchPlace` comes exactly where the place names no element, or the root. After a fault the document is as it
    /// was.
    pub fn replace_at(
        &mut self,
        alloc: Global,
        place: &Place,
        content: Kids,
    ) -> Result<(), PlaceFault>
        ensures edited { OnOk result (only self.new ≡ replacement (nodes (map node content)) place.now self.old) }
        ensures kept { OnErr result (self.new ≡ self.old) }
        ensures no_such_place { result ≡ Err NoSuchPlace ↔ (names_inner place.now self.old ≡ false) }
    {
        edit(
            alloc,
            &mut self.root,
            place.as_slice(),
            Change::Beside(Side::Instead),
            content,
        )
    }
}
