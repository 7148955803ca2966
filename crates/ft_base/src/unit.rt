/// What a window or a distance counts (the standard's FTUnit).
#[derive(Clone, Copy, PartialEq, Eq)]
pub enum TextUnit {
    Words,
    Sentences,
    Paragraphs,
}
