//! Where phrases stand among the words of a span, and among one another, found by going through their spots.
//!
//! `edge_place` says where a phrase has to begin to stand at the first or the last word of a span, `stand_outside` whether one stands where
//! none of another phrase covers it, or where a window round its first word has none of another one. The sources of the hits go forward
//! only, and no memory is taken. The other phrase is sought up to where the first one begins, and behind that only as far as the window
//! reaches: one that begins later neither covers the first one nor stands in the window, and isn't looked for.
//!
//! `laws` says what this has to do with `at start`, `at end`, `entire content`, `not in`, and `ftand ftnot` in a window.
#![tactic(auto)]

mod apart;
mod clear;
mod covering;
mod edge;
pub mod examples;
pub mod laws;
mod outside;

pub use edge::{Edge, edge_place};
pub use outside::{Outside, stand_outside};
