//! Small cases of the definitions, by computation: what commands do, what is ignored, the prices of paths, the rows of commands, and watches.

pub mod abbreviations;
pub mod commands;
pub mod ignored;
pub mod prices;
pub mod rows;
pub mod watches;
