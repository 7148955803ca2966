//! Fields, and counts in them, on small texts.

mod accepted;
mod field;
mod held;
mod row;
mod shape;
mod told;

pub use accepted::{fields_of_filters, occurs_under_filters};
pub use field::{hits_in_a_unit, hits_in_a_window, matches_in_a_field};
pub use held::{forms_in_a_field, forms_that_need_a_hit, times_that_need_a_hit};
pub use row::{
    counts_in_one_sentence, counts_in_windows, counts_that_need_no_hit, hits_that_count,
    windows_to_try,
};
pub use shape::{enough_of_an_item, hits_of_values, items_of_shapes, shapes};
pub use told::{hits_of_a_part, numbers_of_a_window};
