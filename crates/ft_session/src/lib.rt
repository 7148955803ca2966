//! A session of the search engine from its file to its output: `run` reads the file piece by piece and writes the reply to each
//! command.
#![tactic(auto)]

mod answering;
pub mod laws;
mod made;
mod pieces;
mod portion;
mod reading;
mod running;
mod status;
mod writing;

pub use running::run;
pub use status::{Status, exit_of, line_of};
