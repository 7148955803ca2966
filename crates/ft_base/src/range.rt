/// A range of numbers (the standard's FTRange).
#[derive(Clone, Copy, PartialEq, Eq)]
pub enum Range {
    /// `exactly n`
    Exactly(u32),
    /// `at least n`
    AtLeast(u32),
    /// `at most n`
    AtMost(u32),
    /// `from m to n`
    FromTo(u32, u32),
}
