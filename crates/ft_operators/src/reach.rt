ghost use Rattle.std.specs.Prelude.{◌≡◌};
ghost use Rattle.ft_operators.specs.Bounds.{no_reach, order_reach};

/// What the filters round an operand say of every two of its includes, where they say it: that a window of so many words,
/// sentences or paragraphs has room for both, and that one of a later phrase begins no earlier.
#[derive(Clone, Copy)]
pub(crate) struct Reach {
    pub(crate) words: Option<u32>,
    pub(crate) sentences: Option<u32>,
    pub(crate) paragraphs: Option<u32>,
    pub(crate) ordered: bool,
}

/// Nothing is said.
pub(crate) fn no_reach() -> Reach
    ensures { result ≡ no_reach }
{
    Reach {
        words: None,
        sentences: None,
        paragraphs: None,
        ordered: false,
    }
}

/// What `ordered` says.
pub(crate) fn order_reach() -> Reach
    ensures { result ≡ order_reach }
{
    Reach {
        ordered: true,
        ..no_reach()
    }
}
