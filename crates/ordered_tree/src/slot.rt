use crate::NodeRef;
use crate::around::Around;
use crate::shared_attrs::SharedAttrs;
use crate::shared_name::SharedName;
use crate::shared_text::SharedText;

/// What a slot holds.
#[derive(Drop)]
pub(crate) enum Held {
    Element {
        name: SharedName,
        attrs: SharedAttrs,
    },
    Text {
        text: SharedText,
    },
    /// Nothing: the slot is on the list of free ones.
    Free,
}

/// A slot for a node. A free slot has only the next free one.
#[derive(Drop)]
pub(crate) struct Slot {
    pub(crate) held: Held,
    pub(crate) around: Around,
    pub(crate) first_child: Option<NodeRef>,
    pub(crate) last_child: Option<NodeRef>,
    /// How many words the node has.
    pub(crate) words: u32,
}
