use crate::counted_plan::CountedPlan;
use crate::operator_plan::WaysPlan;
use crate::words_plan::WordsPlan;
use ft_base::Items;

/// A selection, compiled.
#[derive(Drop)]
pub enum Node {
    Words(WordsPlan),
    /// One of the parts.
    Or(Items<Node>),
    /// All parts.
    And(Items<Node>),
    Not(Box<Node>),
    /// A selection with filters or `not in`, by its ways.
    Ways(WaysPlan),
    /// Words that are counted in one window, sentence or paragraph.
    Counted(CountedPlan),
}
