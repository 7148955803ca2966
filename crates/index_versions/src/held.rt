ghost use Rattle.std.specs.Prelude.{◌≡◌, IfOk};
ghost use Rattle.index_versions.specs.steps.Held.{held_of};

use ft_base::{Breaks, DocId, Memory};
use index_document::DocIndex;
use shared_list::Share;
use std::alloc::Global;
use std::marker::Model;
use std::rc::Rc;

/// A document of a version: its index over the ids of words, and where its sentences and paragraphs start. Copies share
/// both.
#[derive(Drop)]
pub struct HeldDocument {
    index: Rc<DocIndex>,
    breaks: Rc<Breaks>,
}

impl Model for HeldDocument {
    ghost use Rattle.index_versions.specs.steps.Held.{Held, held_of};

    ghost Value = { Held };

    ghost view = { λ inside. held_of inside.index.value inside.breaks.value };
}

impl HeldDocument {
    /// The document of that index and these breaks.
    pub fn new(alloc: Global, index: DocIndex, breaks: Breaks) -> Result<HeldDocument, Memory>
        ensures { IfOk result (λ held. held ≡ held_of index breaks) }
    {
        let breaks = Rc::new(alloc, breaks)?;
        let index = Rc::new(alloc, index)?;
        Ok(HeldDocument { index, breaks })
    }

    /// The same document once more; nothing of it is copied.
    pub fn share(&self) -> Result<HeldDocument, Memory>
        ensures { IfOk result (λ copy. copy ≡ self.now) }
    {
        let index = self.index.clone()?;
        let breaks = self.breaks.clone()?;
        Ok(HeldDocument { index, breaks })
    }

    /// The document with another index.
    pub fn with_index(&self, alloc: Global, index: DocIndex) -> Result<HeldDocument, Memory>
        ensures { IfOk result (λ held. held ≡ held_of index self.now.breaks) }
    {
        let breaks = self.breaks.clone()?;
        let index = Rc::new(alloc, index)?;
        Ok(HeldDocument { index, breaks })
    }

    /// The document with other breaks.
    pub fn with_breaks(&self, alloc: Global, breaks: Breaks) -> Result<HeldDocument, Memory>
        ensures { IfOk result (λ held. held ≡ held_of self.now.index breaks) }
    {
        let breaks = Rc::new(alloc, breaks)?;
        let index = self.index.clone()?;
        Ok(HeldDocument { index, breaks })
    }

    /// The number of the document.
    pub fn doc(&self) -> DocId
        ensures { result.0 ≡ self.now.index.doc }
    {
        self.index.doc()
    }

    /// Its leaves, with the ids of their words.
    pub fn index(&self) -> &DocIndex
        ensures { result.now ≡ self.now.index }
    {
        &*self.index
    }

    /// Where its sentences and its paragraphs start.
    pub fn breaks(&self) -> &Breaks
        ensures { result.now ≡ self.now.breaks }
    {
        &*self.breaks
    }
}

impl Share for HeldDocument {
    fn copies(alloc: Global, items: &[HeldDocument]) -> Result<Vec<HeldDocument>, Memory> {
        let mut copies = Vec::with_capacity(alloc, items.len())?;
        for item in items {
            copies.push(item.share()?)?;
        }
        Ok(copies)
    }
}
