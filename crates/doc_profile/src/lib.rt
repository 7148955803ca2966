//! Documents as bytes: reading a document or a fragment, and printing on one line.
#![tactic(auto)]

mod attributes;
mod content;
mod end_tags;
mod fault;
pub mod laws;
mod phase;
mod plain;
mod print;
mod read;
mod reader;
mod references;
mod start_tags;
mod values;

pub use fault::DocFault;
pub use print::{print_doc, print_tree};
pub use read::{read_doc, read_fragment};
