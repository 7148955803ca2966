//! What selections mean on small texts, filter by filter and operator by operator.

mod allowed;
mod anchor;
mod distance;
mod filter;
mod hit;
mod item;
mod mild_not;
mod negation;
mod nested;
mod occurs;
mod options;
mod ordered;
mod scope;
mod window;
mod word;

pub use allowed::{nots_that_may_stand, operands_of_mild_not, times_that_may_stand};
pub use anchor::{covered_content, excludes_under_anchors, some_hit_at_an_edge};
pub use distance::{distances_in_ranges, distances_of_neighbours, excludes_at_distances};
pub use filter::{
    anchors, distances, distances_without_excludes, entire, nested_filters, order, scopes, windows,
};
pub use hit::{hits_as_one, hits_in_the_order_of_the_text};
pub use item::{covered_items, edges_of_an_item};
pub use mild_not::{right_sides_without_includes, words_that_stand_out};
pub use negation::{excludes_under_filters, mild_not_by_cover, no_includes};
pub use nested::{excludes_under_nested_filters, hits_kept_apart, joined_hits};
pub use occurs::{times_in_an_empty_range, times_in_range, times_under_filters};
pub use options::{inner_lists, inner_options, outer_options};
pub use ordered::{excludes_under_order, order_by_phrases, order_of_every_two};
pub use scope::{
    different_scopes, excludes_under_different_scopes, excludes_under_same_scope, same_scope,
};
pub use window::{
    excludes_in_windows, hits_in_a_window, hits_in_windows, places_of_windows, windows_of_a_size,
};
pub use word::{modes, stop_words, times};
