//! What paths select, and what they ask, in small documents.

mod ignored;
mod path;
mod predicate;

pub use ignored::{ignored_elements, selected_without};
pub use path::{
    selected_by_condition, selected_by_number, selected_by_steps, selected_in_a_collection,
};
pub use predicate::tested_by_predicates;
