//! The documents of a session, each with a stamp: a number that no document had before, since it was loaded or changed. Who keeps what was found
//! in a document knows by its stamp whether that still holds.
#![tactic(auto)]

pub mod examples;
mod stamped;
mod stamping;

pub use stamped::{Renewal, Stamped};
