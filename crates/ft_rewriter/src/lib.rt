//! Selections rewritten into a simpler form, which the same texts satisfy: options are given to the words, `ftnot` is moved inwards, and no
//! operand of `ftor` or `ftand` stands twice.
#![tactic(auto)]

mod connected;
mod connective;
mod equal;
pub mod examples;
mod flattened;
mod given;
pub mod laws;
mod numbers;
mod option_numbers;
mod rewriting;
mod simplified;

pub use connective::Connective;
pub use equal::numbers_of;
pub use rewriting::rewrite;
