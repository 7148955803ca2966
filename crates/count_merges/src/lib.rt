//! Whether some window of a text holds as many hits of some phrases as are asked for, and not too many, found by going through their spots.
//!
//! `fit_in_window` goes from event to event, which is where a hit comes into the windows that end there, or where one has gone out of them. Between
//! two events each window holds the same. The variants of a phrase stand there twice: the front passes the spots that come in, the back those that
//! go out, and how many are held is how many the one has passed more than the other (`passing`, `groups`). An item that hasn't enough, or has too
//! much, says at which event of its own that may change, and the search jumps there, so that the items behind it aren't asked before
//! (`items`, `fitting`). The sources of the hits go forward only, and no memory is taken.
//!
//! Windows count words, sentences or paragraphs, by the numbers that `Units` gives to places: those of words are the places themselves
//! (`EachWord`), and one sentence or paragraph is a window of one of them. `laws` says so of the definitions.
#![tactic(auto)]

pub mod examples;
mod fitting;
mod groups;
mod item;
mod items;
pub mod laws;
mod passing;
mod starting;
mod window;
mod words;

pub use fitting::{fit_in_unit, fit_in_window};
pub use item::{CountedItem, VariantGroup};
pub use words::EachWord;
