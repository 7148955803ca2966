//! The best hits of selections that texts satisfy, by the index: the places of the words by which it is shown why a text does.
//!
//! Which selections can be shown (`showable`), and their marks over a version of the index (`marks`). A selection is compiled to be
//! shown, and opened over the version (`shown`, `opening`): words to a walk of which the first ways are shown, a choice to parts of
//! which the first one is shown that holds, and a filter or `not in` to a walk of which the least clean way is. A window in words round
//! phrases (`window_plan`) is opened to the phrases alone, through the hits of which one pass finds the least way (`window`). The places
//! are put into one list (`putting`).
#![tactic(auto)]

mod marks;
mod opening;
mod opening_window;
mod putting;
mod showable;
mod shown;
mod window;
mod window_plan;

pub use marks::Marks;
pub use showable::can_show;
