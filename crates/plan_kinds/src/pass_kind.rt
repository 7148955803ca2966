use ft_base::{Range, Unit};

/// How the hits of phrases have to stand to one another.
#[derive(Clone, Copy)]
pub enum PassKind {
    /// Two of them, with as much between them as that.
    Apart(Range, Unit),
    /// None beginning before one of an earlier phrase.
    InOrder,
}
