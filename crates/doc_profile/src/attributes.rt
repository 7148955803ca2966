ghost use Rattle.std.specs.Prelude.{◌≡◌, ◌++◌, ◌∷◌, [], IfOk};
ghost use Rattle.doc_grammar.specs.Grammar as grammar;

use ft_base::Memory;
use plain_tree::Attr;
use std::alloc::Global;
use std::collections::HashSet;
use std::marker::Model;
use std::mem;

/// How many attributes are looked at one by one: the names of the others stand in a set.
pub(crate) const FEW: usize = 16;

/// The attributes of a start tag under way, which contracts see as the list of them. The names of those after the first few
/// stand in a set too, so that whether a name is there takes no longer the more there are.
#[derive(Drop)]
pub struct TagAttributes {
    attrs: Vec<Attr>,
    later: HashSet<String>,
}

impl Model for TagAttributes {
    ghost use Rattle.std.specs.Prelude.{List, drop};
    ghost use Rattle.plain_tree.specs.declared.tree.Attr.{Attr};
    ghost use Rattle.doc_profile.specs.steps.LaterNames.{AreNamesOf, few};

    ghost Value = { List Attr };

    ghost view = { λ tag. tag.attrs.items };

    ghost invariant = { λ tag. AreNamesOf tag.later (drop few tag.attrs.items) };
}

impl TagAttributes {
    /// No attributes. It allocates nothing.
    pub fn new(alloc: Global) -> TagAttributes
        ensures { result ≡ [] }
    {
        TagAttributes {
            attrs: Vec::new(alloc),
            later: HashSet::new(alloc),
        }
    }

    /// Takes all attributes out, in their memory.
    pub fn take_all(&mut self, alloc: Global) -> Vec<Attr>
        ensures taken { result.items ≡ self.old }
        ensures left { self.new ≡ [] }
    {
        let taken = mem::replace(self, TagAttributes::new(alloc));
        taken.attrs
    }

    /// Whether an attribute has the name.
    pub fn has_name(&self, name: &str) -> bool
        ensures { result ≡ grammar.has_name name.now self.now }
    {
        if self.attrs.len() <= FEW {
            return is_among(self.attrs.as_slice(), name);
        }
        is_among(&self.attrs[..FEW], name) || self.later.contains(name)
    }

    /// The attributes with one more after them.
    pub fn with(mut self, alloc: Global, attr: Attr) -> Result<TagAttributes, Memory>
        ensures { IfOk result (λ more. more ≡ self ++ attr ∷ []) }
    {
        if self.attrs.len() < FEW {
            self.attrs.push(attr)?;
            return Ok(self);
        }
        let name = String::from_str(alloc, attr.name.as_str())?;
        self.later.insert(name)?;
        self.attrs.push(attr)?;
        Ok(self)
    }
}

/// Whether one of the attributes has the name.
fn is_among(attrs: &[Attr], name: &str) -> bool
    ensures { result ≡ grammar.has_name name.now attrs.now }
{
    attrs.iter().any(|attr| attr.name.as_str() == name)
}
