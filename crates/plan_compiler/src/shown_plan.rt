//! Selections compiled to show their best hits.

use crate::looks::Looks;
use crate::node::Node;
use crate::operator_plan::WaysPlan;
use ft_base::Items;

/// A selection, compiled to show by which hits a text satisfies it.
#[derive(Drop)]
pub struct ShownPlan {
    /// What it looks at of the words of a text.
    pub looks: Looks,
    /// The selection, compiled.
    pub root: ShownNode,
}

/// What is shown of a selection.
#[cycle(shown)]
#[derive(Drop)]
pub enum ShownNode {
    /// Words: the includes of their first ways.
    First(FirstWays),
    /// The first part that the text satisfies.
    Or(Items<ShownPart>),
    /// Each part, one after the other.
    And(Items<ShownNode>),
    /// Of `ftnot` there is nothing to show.
    Nothing,
    /// A selection with filters or `not in`: the least includes of its clean ways.
    Least(WaysPlan),
}

/// A part of a choice.
#[cycle(shown)]
#[derive(Drop)]
pub struct ShownPart {
    /// Whether a text satisfies it.
    pub node: Node,
    pub shown: ShownNode,
}

/// Words, of which so many ways are shown.
#[derive(Drop)]
pub struct FirstWays {
    pub ways: WaysPlan,
    /// As many as `occurs` asks for at least, and one without it.
    pub most: u32,
}
