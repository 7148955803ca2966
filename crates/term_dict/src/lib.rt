//! The dictionary of an index: its terms in order, in blocks that the dictionary's copies share, each with an id, which
//! names it for ever.
//!
//! `entry_ref` is an entry that is read or looked for, `entry_list` entries whose texts stand one after the other,
//! `entry_block` such a list that several dictionaries hold, `given` the blocks of the entries that ever came in, `terms`
//! the terms in order as the ids of their entries; `places` finds where an entry stands, and `dictionary` is the
//! dictionary itself.
#![tactic(auto)]

mod dictionary;
mod entry_block;
mod entry_list;
mod entry_ref;
mod given;
mod places;
mod term;
mod terms;

pub use dictionary::TermDict;
pub use term::Term;
