use crate::position::Position;

/// What a pass through the hits up to an end tells.
#[derive(Clone, Copy)]
pub(crate) struct Passed {
    /// The latest start of what ends there or before.
    pub(crate) start: Option<Position>,
    /// The next end.
    pub(crate) next: Option<Position>,
}
