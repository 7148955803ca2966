use crate::phrase_plan::PhrasePlan;
use ft_base::{Items, Range};

/// The words of a selection, ready to be counted.
#[derive(Drop)]
pub struct WordsPlan {
    pub phrases: Items<PhrasePlan>,
    /// Whether a hit of each phrase is wanted, and not of one of them.
    pub all: bool,
    /// How often they have to occur, if this was written.
    pub times: Option<Range>,
}
