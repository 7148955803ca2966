/// How words have to stand to one another.
#[derive(Clone, Copy)]
pub enum MergeKind {
    /// Among so many words of the text that follow one another.
    Close(u32),
    /// None before one that comes earlier in the selection.
    InOrder,
    /// In one sentence.
    InSentence,
    /// In one paragraph.
    InParagraph,
}
