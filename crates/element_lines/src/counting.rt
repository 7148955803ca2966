ghost use Rattle.std.specs.Prelude.{◌≡◌};

use ordered_tree::{ElementName, NodeRef};

/// How far the children of an element are counted that have one name.
#[derive(Clone, Copy)]
pub(crate) struct Counting<'t> {
    pub(crate) parent: NodeRef,
    pub(crate) name: &'t str,
    /// The name, made ready
    pub(crate) ready: ElementName<'t>,
    /// The first child that isn't counted yet
    pub(crate) link: Option<NodeRef>,
    /// One more than the number of children before it that have the name
    pub(crate) number: u32,
    ghost same: { ready.name.now ≡ name.now },
}
