//! The lines of a text file as people write them: where a line ends, what it says without the blanks at its ends, which lines
//! are skipped, and where a word ends.
#![tactic(auto)]

mod content_lines;
mod line;

pub use content_lines::{ContentLine, ContentLines};
pub use line::{drop_return, is_skipped, line_end, skip_blanks, trim_line, word_end};
