ghost use Rattle.std.specs.Prelude.{◌≡◌, [], IfOk};
ghost use Rattle.index_document.specs.Terms.{document_of};

use crate::leaves::Leaves;
use ft_base::{DocId, Memory};
use postings::PostingList;
use std::alloc::Global;

/// What the index of a document is made of: its leaves; its terms, ascending; the place of the first row of each; and
/// all rows, one term after the other, and with one term in the order of the text.
#[derive(Drop)]
pub struct Parts {
    pub leaves: Leaves,
    pub ids: Vec<u32>,
    pub starts: Vec<u32>,
    pub rows: PostingList,
}

impl Parts {
    /// The parts of a document without leaves.
    pub(crate) fn empty(alloc: Global, doc: DocId) -> Parts
        ensures leaves { result.leaves ≡ document_of doc.0 [] }
        ensures ids { result.ids.items ≡ [] }
        ensures starts { result.starts.items ≡ [] }
        ensures rows { result.rows ≡ [] }
    {
        Parts {
            leaves: Leaves::empty(alloc, doc),
            ids: Vec::new(alloc),
            starts: Vec::new(alloc),
            rows: PostingList::empty(alloc),
        }
    }

    /// The same parts once more; no row and no word is copied.
    pub(crate) fn copy(&self) -> Result<Parts, Memory>
        ensures leaves { IfOk result (λ copy. copy.leaves ≡ self.now.leaves) }
        ensures ids { IfOk result (λ copy. copy.ids.items ≡ self.now.ids.items) }
        ensures starts { IfOk result (λ copy. copy.starts.items ≡ self.now.starts.items) }
        ensures rows { IfOk result (λ copy. copy.rows ≡ self.now.rows) }
    {
        let alloc = *self.ids.allocator();
        let leaves = self.leaves.copy()?;
        let ids = Vec::from_slice(alloc, self.ids.as_slice())?;
        let starts = Vec::from_slice(alloc, self.starts.as_slice())?;
        let rows = self.rows.copy()?;
        Ok(Parts {
            leaves,
            ids,
            starts,
            rows,
        })
    }
}
