use ft_base::{Items, Line};

/// An attribute of an element.
#[derive(Drop)]
pub struct Attr {
    pub name: Line,
    pub value: Line,
}

/// A list of attributes, in the order of the document.
pub type Attrs = Items<Attr>;

/// A list of children, in the order of the document.
pub type Kids = Items<Tree>;

/// A node of a document, with all that is below it.
#[derive(Drop)]
pub enum Tree {
    /// An element with its name, its attributes and its children.
    Elem {
        name: Line,
        attrs: Attrs,
        kids: Kids,
    },
    /// A text.
    Text {
        text: Line,
    },
}
