//! Reading selections of full-text queries.
#![tactic(auto)]

mod building;
mod ending;
pub mod examples;
mod filter_depth;
mod finishing;
mod heads;
pub mod laws;
mod limits;
mod operand_turns;
mod option_turns;
mod parts;
mod plain_option;
mod prefix;
mod read;
mod scan;
mod state;
mod stop_turns;
mod thesaurus_turns;
mod turn;
mod value_turns;

pub use prefix::{read_prefix, read_run};
pub use query_lexer::{Placed, Symbol, Symbols, symbols, symbols_from};
pub use read::read_selection;
