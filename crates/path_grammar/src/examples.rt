//! Small paths, as the grammar spells them and as the machine reads them.

mod machine;
mod spelled;

pub use machine::{
    ignored_paths, read_and_not, read_names, read_number, read_selections, read_without,
};
pub use spelled::{
    begun_by_a_root, selection_places, spelled_and_not, spelled_keywords, spelled_number,
    spelled_selections, spelled_without,
};
