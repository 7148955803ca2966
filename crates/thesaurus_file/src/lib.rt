//! Thesauri as files: which phrases a phrase stands for, by lines that lead from one phrase to another.
#![tactic(auto)]

pub mod laws;
mod levels;
mod link;
mod parse;
mod phrase;
mod thesaurus;

pub use ft_base::ListFault;
pub use levels::Levels;
pub use phrase::Phrase;
pub use thesaurus::Thesaurus;
