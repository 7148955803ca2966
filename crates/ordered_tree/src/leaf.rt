use ft_base::LeafId;
use text_list::TextList;

/// A leaf with its words, in order. It stands directly after the leaf `after`, or first.
#[derive(Drop)]
pub struct LeafWords {
    pub leaf: LeafId,
    pub after: Option<LeafId>,
    pub words: TextList,
}
