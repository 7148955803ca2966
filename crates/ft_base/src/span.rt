/// The positions of words from `from` to `to - 1`, from 1. It is empty where the two are equal.
#[derive(Clone, Copy, PartialEq, Eq)]
pub struct Span {
    pub from: u32,
    pub to: u32,
}
