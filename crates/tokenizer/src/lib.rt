//! The tokens of a document: its words with the numbers of their sentences and paragraphs, and where those start.
#![tactic(auto)]

mod behind;
mod blocks;
mod breaks;
pub mod examples;
mod gap;
mod gap_part;
mod laws;
mod numbering;
mod segments;
mod starts;
mod text_starts;
mod tokens;
mod walk;

pub use breaks::breaks_of;
pub use ft_base::Token;
pub use laws::words_law;
pub use starts::Starts;
pub use text_starts::{TextRead, TextStarts};
pub use tokens::{TokenFault, tokens_of, tokens_of_tree};
