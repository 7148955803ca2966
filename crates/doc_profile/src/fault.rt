use ft_base::Memory;

/// Why bytes were not read as a document or a fragment. A place counts the bytes before it.
#[derive(Clone, Copy, PartialEq, Eq)]
pub enum DocFault {
    /// The bytes are not UTF-8: the first byte of the first sequence that is none.
    NotUtf8 { at: usize },
    /// The text can't go on like this: the bytes before the place begin a document, and one character more doesn't.
    Syntax { at: usize },
    /// Elements stand deeper in one another than `MAX_DEPTH`: the `<` of the first tag one level deeper.
    Depth { at: usize },
    /// There are more than `MAX_NODES` elements and texts: the first byte of the first one too many.
    Nodes { at: usize },
    /// There was not enough memory.
    Memory,
}

impl From<Memory> for DocFault {
    ghost use Rattle.std.specs.Prelude.{◌≡◌};
    ghost use Rattle.doc_profile.specs.declared.fault.DocFault.{DocFault};
    ghost use Rattle.doc_profile.specs.declared.fault.DocFault.TheVariants as the_fault;

    ghost from_gives = { λ _ fault. fault ≡ the_fault.Memory };

    fn from(_memory: Memory) -> DocFault {
        DocFault::Memory
    }
}
