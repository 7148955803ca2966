//! What a full-text query is as symbols: the grammar of selections, and what begins one.
#![tactic(auto)]

pub mod laws;
mod parsed;
mod symbol;

pub use parsed::{MatchOption, Parsed, ParsedWords, PlacedOption, PlacedString, PlacedTimes};
pub use symbol::{Placed, Symbol, Symbols};
