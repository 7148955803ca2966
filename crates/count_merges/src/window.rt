/// How long the windows of a text are, and where the text ends.
#[derive(Clone, Copy)]
pub(crate) struct Window {
    /// How many words, sentences or paragraphs each window has.
    pub(crate) size: u32,
    /// The place after the last word of the text.
    pub(crate) to: u32,
}
