ghost use Rattle.std.specs.Prelude.{◌≡◌};
ghost use Rattle.plain_tree.specs.steps.Changes.{insertion_of};

use crate::place::How;

/// What content does to an element.
#[derive(Clone, Copy)]
pub(crate) enum Change {
    /// It stands among the element's children.
    Into(End),
    /// It stands among the element's siblings.
    Beside(Side),
}

/// An end of an element's children.
#[derive(Clone, Copy)]
pub(crate) enum End {
    First,
    Last,
}

/// Before an element, after it, or in its place.
#[derive(Clone, Copy)]
pub(crate) enum Side {
    Before,
    After,
    Instead,
}

impl Change {
    /// An insertion as a change.
    pub(crate) fn insertion(how: How) -> Change
        ensures { result ≡ insertion_of how }
    {
        match how {
            How::First => Change::Into(End::First),
            How::Last => Change::Into(End::Last),
            How::Before => Change::Beside(Side::Before),
            How::After => Change::Beside(Side::After),
        }
    }
}
