//! The definitions on small texts and selections, by computation.

mod best;
mod least;
mod showable;

pub use best::{filters_shown, operators_shown, words_shown};
pub use least::lists_in_order;
pub use showable::selections_to_show;
