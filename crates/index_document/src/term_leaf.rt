ghost use Rattle.std.specs.Prelude.{◌≡◌, IfOk};
ghost use Rattle.index_document.specs.Terms.{leaf_of};

use ft_base::{LeafId, Memory};
use shared_list::Share;
use std::alloc::Global;
use std::marker::Model;
use std::rc::Rc;

/// A leaf of a document, which is a text of it, with the terms of its words in order. Copies share the words.
#[derive(Drop)]
pub struct TermLeaf {
    leaf: LeafId,
    // `None` where there is no word, as in half of the texts between elements.
    terms: Option<Rc<Vec<u32>>>,
}

impl Model for TermLeaf {
    ghost use Rattle.index_document.specs.Terms.{Leaf, leaf_of};
    ghost use Rattle.std.specs.Option.{option_map_or};
    ghost use Rattle.std.specs.Prelude.{[]};

    ghost Value = { Leaf };

    ghost view = { λ inside. leaf_of inside.leaf.0 (option_map_or (λ shared. shared.value.items) inside.terms []) };
}

impl TermLeaf {
    /// The leaf of that number with these words, in the vector's memory.
    pub fn new(leaf: LeafId, terms: Vec<u32>) -> Result<TermLeaf, Memory>
        ensures { IfOk result (λ made. made ≡ leaf_of leaf.0 terms.items) }
    {
        if terms.is_empty() {
            return Ok(TermLeaf { leaf, terms: None });
        }
        let alloc = *terms.allocator();
        let terms = Some(Rc::new(alloc, terms)?);
        Ok(TermLeaf { leaf, terms })
    }

    /// The number of the leaf.
    pub fn leaf(&self) -> LeafId
        ensures { result.0 ≡ self.now.id }
    {
        self.leaf
    }

    /// The terms of its words, in order.
    pub fn terms(&self) -> &[u32]
        ensures { result.now ≡ self.now.words }
    {
        match &self.terms {
            Some(terms) => terms.as_slice(),
            None => &[],
        }
    }

    /// The same leaf once more; no word is copied.
    pub fn share(&self) -> Result<TermLeaf, Memory>
        ensures { IfOk result (λ copy. copy ≡ self.now) }
    {
        let terms = match &self.terms {
            Some(terms) => Some(terms.clone()?),
            None => None,
        };
        Ok(TermLeaf {
            leaf: self.leaf,
            terms,
        })
    }
}

impl Share for TermLeaf {
    fn copies(alloc: Global, items: &[TermLeaf]) -> Result<Vec<TermLeaf>, Memory> {
        let mut copies = Vec::with_capacity(alloc, items.len())?;
        for item in items {
            copies.push(item.share()?)?;
        }
        Ok(copies)
    }
}
