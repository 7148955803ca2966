//! What holds of the selections that are read.

mod prefix;
mod selection;

pub use prefix::run_law;
pub use selection::{filters_law, reading_law};
