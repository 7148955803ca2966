//! Documents in slots that are linked by number and shared by copies: each node has a reference, a span of words, and a leaf where it is a text.
#![tactic(auto)]

mod around;
mod attrs;
mod breaks;
mod building;
mod climbing;
mod counting;
mod doc_tree;
mod element_name;
mod free_slots;
mod head;
pub mod laws;
mod leaf;
mod leaves;
mod link;
mod names;
mod placing;
mod plain;
mod read;
mod reading;
mod ref_tree;
mod referenced;
mod shared_attrs;
mod shared_name;
mod shared_text;
mod slot;
mod slot_core;
mod slots;
mod texts;
mod texts_read;

pub use around::Around;
pub use counting::count_nodes;
pub use doc_tree::DocTree;
pub use element_name::ElementName;
use ft_base::Items;
pub use ft_base::{LeafId, NodeRef};
pub use leaf::LeafWords;
pub use plain_tree::Place;
pub use read::{Read, load_doc};
pub use ref_tree::{RefKids, RefTree};
pub use shared_attrs::SharedAttrs;
pub use shared_name::SharedName;
pub use shared_text::SharedText;
pub use texts::TextAt;

/// A list of leaves.
pub type LeafIds = Items<LeafId>;

/// A list of references.
pub type NodeRefs = Items<NodeRef>;

/// A list of leaves with their words.
pub type Leaves = Items<LeafWords>;
