//! Sessions of format 2, by computation.

mod names;
mod shown;
mod sizes;
mod watches;

pub use names::{names_in_quotation_marks, queries_at_quoted_names, texts_in_quotation_marks};
pub use shown::{lines_behind_show, nodes_shown_in_both_formats};
pub use sizes::{
    abbreviations, blocks_of_lines, commands_with_blocks, first_lines, lengths, lengths_in_lines,
    open_blocks, sizes_of_first_lines,
};
pub use watches::{
    lines_behind_watches, watches_in_the_first_format, watches_in_the_second_format,
};
