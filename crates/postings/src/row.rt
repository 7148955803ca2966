use ft_base::{LeafId, Memory};
use shared_list::Share;
use std::alloc::Global;

/// One place at which a word stands in a document (a posting): the leaf, and how many words of the leaf stand before
/// of it.
#[derive(Clone, Copy, PartialEq, Eq)]
pub struct Row {
    pub leaf: LeafId,
    pub offset: u32,
}

impl Share for Row {
    fn copies(alloc: Global, items: &[Row]) -> Result<Vec<Row>, Memory> {
        Ok(Vec::from_slice(alloc, items)?)
    }
}
