//! Lists of words as files: sets of keys, which are stop lists and abbreviations, and dictionaries of stems.
#![tactic(auto)]

mod key_set;
mod stems;
mod words;

pub use ft_base::ListFault;
pub use key_set::KeySet;
pub use stems::Stems;
