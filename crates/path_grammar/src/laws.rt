//! What holds of the grammar of paths, and of the machine that decides it.

mod machine;
mod view;

pub use machine::{machine_begins, machine_levels, one_path, read_is_spelled, spelled_is_read};
pub use view::views_law;
