//! Selections of full-text queries (XQuery and XPath Full Text 3.0, section 3), and their printed form.
#![tactic(auto)]

mod copying;
pub mod examples;
mod option_copying;
mod print_options;
mod print_words;
mod printer;
mod printing;
mod selection;

pub use copying::copy_selection;
use ft_base::Items;
pub use ft_base::{Filter, Mode, Range, Unit, Words};
pub use option_copying::{copy_options, copy_words};
pub use printing::print_selection;
pub use selection::Selection;

/// A list of selections.
pub type Selections = Items<Selection>;
