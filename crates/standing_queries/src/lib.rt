//! Standing queries: the lines that were answered last, document by document, and what went and came since then.
//!
//! A document that stays as it was is known by its stamp, and brings no lines.
#![tactic(auto)]

pub mod examples;
mod line_fronts;
mod line_set;
mod shared_lines;
mod standing;
mod turn;

pub use shared_lines::SharedLines;
pub use standing::Standing;
pub use turn::Turn;
