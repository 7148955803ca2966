//! The elements of a document to which the steps of a path lead.
#![tactic(auto)]

mod attributes;
mod children;
mod conditions;
mod contains_text;
mod evaluation;
mod kept;
pub mod laws;
mod leading;
mod marks;
mod names;
mod numbers;
mod offering;
mod outermost;
mod predicates;
mod ruling_out;
mod selected;
mod skipping;
mod steps;
mod texts;
mod walks;
mod without_holes;

pub use contains_text::{HoleTest, TextTest};
use ft_base::Items;
use ordered_tree::NodeRef;
pub use selected::{nodes, nodes_without};

/// References of elements, in the order in which they were found.
pub type Nodes = Items<NodeRef>;
