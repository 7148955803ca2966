//! The forms of a text under which words are compared: with or without case, with or without marks.
#![tactic(auto)]

mod cases;
mod forms;
mod marks;

pub use cases::{is_lower_only, is_upper_only};
pub use forms::{exact, key, plain_case, plain_marks};
