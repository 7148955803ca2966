//! Where the bytes of a session come from and where its replies go: files that can be read at a place, and a sink that takes
//! bytes one after the other. Each has a form in memory and a form of the operating system.
#![tactic(auto)]

mod failed;
#[cfg(test)]
mod fakes;
mod file_shelf;
mod memory_shelf;
mod memory_sink;
mod shelf;
mod sink;
mod std_sink;
#[cfg(test)]
mod tests;

pub use failed::Failed;
pub use file_shelf::FileShelf;
pub use memory_shelf::MemoryShelf;
pub use memory_sink::MemorySink;
pub use shelf::Shelf;
pub use sink::Sink;
pub use std_sink::StdSink;
