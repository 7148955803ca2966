//! What holds of printed forms and of their symbols.

mod places;
mod printed;
mod strings;
mod symbols;

pub use places::same_elsewhere;
pub use printed::{read_again, read_back, spelled_again};
pub use strings::{names_read, numbers_read, strings_read};
pub use symbols::symbols_read;
