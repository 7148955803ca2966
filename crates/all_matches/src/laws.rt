//! What holds of selections, of their Matches and of the hits of phrases, subject by subject.

mod boolean;
mod chain;
mod count;
mod hit;
mod operator;
mod satisfied;
mod way;
mod window;

pub use boolean::{and_law, choice_law, not_law, occurs_law, or_law};
pub use chain::{chain_law, empty_chain_law};
pub use count::{occurrences_law, places_law};
pub use hit::{sorted_hits_law, span_hits_law};
pub use operator::{allowed_law, filtered_selection_law, operator_law, plain_operator_law};
pub use satisfied::{
    numbering_law, sat_and_law, sat_not_law, sat_options_law, sat_or_law, sat_words_law,
};
pub use way::ways_law;
pub use window::some_window_law;
