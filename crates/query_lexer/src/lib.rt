//! The symbols of query texts: names, numbers, strings and marks, with their places.
#![tactic(auto)]

mod characters;
pub mod examples;
pub mod laws;
mod lexeme;
mod lexer;
mod prefix;

pub use lexer::{symbols, symbols_from};
pub use selection_grammar::{Placed, Symbol, Symbols};
