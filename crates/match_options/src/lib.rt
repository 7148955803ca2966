//! Match options of full-text queries (XQuery and XPath Full Text 3.0, section 3.4): when a word of a text is the same as a word of a
//! query, and patterns with wildcards.
#![tactic(auto)]

mod atom;
mod comparing;
mod covering;
pub mod examples;
mod form_choice;
mod item;
pub mod laws;
mod pattern;
mod place_row;
mod prefix;
mod row;
mod splitting;
mod trying;
mod wild;
mod word_forms;
mod word_matching;

pub use comparing::{forms, same_token};
pub use form_choice::FormChoice;
pub use item::{QueryItem, items_of};
pub use pattern::{has_bad_pattern, is_pattern};
pub use place_row::PlaceRow;
pub use splitting::parts;
pub use wild::{Wild, WildFault};
pub use word_forms::Forms;
pub use word_matching::{WordTest, forms_as};
