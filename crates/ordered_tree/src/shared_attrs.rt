//! Attributes of elements, which the trees of a document share.

ghost use Rattle.std.specs.Prelude.{◌≡◌, IfOk, IsTrue};

use crate::slot_core::same_text;
use ft_base::Memory;
use plain_tree::{Attr, Attrs, copy_attrs};
use std::alloc::Global;
use std::marker::Model;
use std::rc::Rc;

/// The attributes of an element, which take no memory where there is none. Copies share them, and contracts see their list.
#[derive(Drop)]
pub struct SharedAttrs {
    attrs: Option<Rc<Attrs>>,
}

impl Model for SharedAttrs {
    ghost use Rattle.std.specs.Option.{option_map_or};
    ghost use Rattle.std.specs.Prelude.{List, []};
    ghost use Rattle.plain_tree.specs.declared.tree.Attr.{Attr};

    ghost Value = { List Attr };

    ghost view = { λ inside. option_map_or (λ shared. shared.value) inside.attrs [] };
}

impl SharedAttrs {
    /// The attributes in their memory.
    pub fn new(alloc: Global, attrs: Attrs) -> Result<SharedAttrs, Memory>
        ensures { IfOk result (λ shared. shared ≡ attrs) }
    {
        if attrs.is_empty() {
            return Ok(SharedAttrs { attrs: None });
        }
        let attrs = Rc::new(alloc, attrs)?;
        Ok(SharedAttrs { attrs: Some(attrs) })
    }

    /// The same attributes once more; nothing of them is copied.
    pub fn share(&self) -> Result<SharedAttrs, Memory>
        ensures { IfOk result (λ copy. copy ≡ self.now) }
    {
        match &self.attrs {
            Some(attrs) => Ok(SharedAttrs {
                attrs: Some(attrs.clone()?),
            }),
            None => Ok(SharedAttrs { attrs: None }),
        }
    }

    /// Whether the other attributes are the same.
    pub(crate) fn is_same(&self, other: &SharedAttrs) -> bool
        ensures { IsTrue result → self.now ≡ other.now }
    {
        same_attrs(self.as_slice(), other.as_slice())
    }

    /// A copy of the attributes.
    pub(crate) fn to_attrs(&self, alloc: Global) -> Result<Attrs, Memory>
        ensures { IfOk result (λ copy. copy ≡ self.now) }
    {
        match &self.attrs {
            Some(attrs) => copy_attrs(alloc, attrs),
            None => Ok(Attrs::new(alloc)),
        }
    }

    /// The attributes, in the order of the document.
    pub fn as_slice(&self) -> &[Attr]
        ensures { result.now ≡ self.now }
    {
        match &self.attrs {
            Some(attrs) => attrs.as_slice(),
            None => &[],
        }
    }
}

/// Whether the attributes are the same as the others.
fn same_attrs(attrs: &[Attr], others: &[Attr]) -> bool
    ensures { IsTrue result → attrs.now ≡ others.now }
{
    if attrs.len() != others.len() {
        return false;
    }
    for at in 0..attrs.len() {
        if !same_attr(&attrs[at], &others[at]) {
            return false;
        }
    }
    true
}

/// Whether the attribute is the same as the other.
fn same_attr(attr: &Attr, other: &Attr) -> bool
    ensures { IsTrue result → attr.now ≡ other.now }
{
    same_text(attr.name.as_str(), other.name.as_str())
        && same_text(attr.value.as_str(), other.value.as_str())
}
