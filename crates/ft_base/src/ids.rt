/// Which document of a collection is meant. The documents of one collection have different numbers, which say
/// nothing else.
#[derive(Clone, Copy, PartialEq, Eq)]
pub struct DocId(pub u32);

/// Which node of a document is meant: the number of its slot in the document's tree.
#[derive(Clone, Copy, PartialEq, Eq)]
pub struct NodeRef(pub u32);

/// Which leaf of a document is meant: a text of it, whose words are kept together. The leaves of one document have
/// different numbers, which say nothing else, not even in which order the leaves stand.
#[derive(Clone, Copy, PartialEq, Eq)]
pub struct LeafId(pub u32);
