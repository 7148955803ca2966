//! The documents of a session with their index: what loading, dropping and editing do to them, and how much there is.
#![tactic(auto)]

mod abbreviations;
mod applying;
mod collection;
mod documents;
pub mod examples;
mod fault;
mod limits;
mod loaded;
mod loading;
mod making;
mod names;
mod planning;
mod rebreaking;
mod tokens;

pub use collection::Collection;
pub use documents::{Documents, Iter};
pub use fault::{NotEdited, NotLoaded, NotRemoved};
pub use loaded::Loaded;
