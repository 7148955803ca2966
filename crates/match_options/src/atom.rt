/// An atom of a pattern.
#[derive(Clone, Copy, PartialEq, Eq)]
pub(crate) enum Atom {
    /// A character that stands for itself.
    Letter(char),
    /// Characters, whichever they are: at least so many, and at most so many where there is a bound.
    Gap(u32, Option<u32>),
}

/// An atom at the front of a pattern, and the number of its characters there.
#[derive(Clone, Copy)]
pub(crate) struct SizedAtom {
    pub(crate) atom: Atom,
    pub(crate) size: usize,
}

/// A number between braces, and the number of its characters with what closes it.
#[derive(Clone, Copy)]
pub(crate) struct Number {
    pub(crate) value: u32,
    pub(crate) size: usize,
}
