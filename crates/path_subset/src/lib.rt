//! Reading the paths of queries, and the selections in them.
#![tactic(auto)]

mod building;
mod closing;
mod conditions;
pub mod examples;
mod heads;
pub mod laws;
mod limits;
mod path;
mod read;
mod shown;
mod state;
mod stepping;
mod turn;
mod without;

pub use path::{Extent, ReadPath};
pub use read::read_path;
