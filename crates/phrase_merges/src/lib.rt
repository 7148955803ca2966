//! Phrases that stand in windows and scopes, in order or at a distance, found by going through their hits.
//!
//! Each phrase has some lists of hits, as one for each of its variants, so that no hit of a list begins or ends before an
//! earlier one. `stand_near_at` says whether phrases that `ftor` and `ftand` join, in windows and scopes as nested as one likes, are
//! satisfied; its tree takes memory when it is made. `begin_in_order` says whether hits can be chosen in the order of the phrases,
//! `stand_near` whether they have at most so much between them, and `stand_apart` whether two have as much between them as a range tells.
//! None of them tries choices: the lists go forward only, and no memory is taken.
//!
//! `laws` says what this has to do with `window`, `same sentence`, `same paragraph`, `ordered` and `distance`.
#![tactic(auto)]

mod aiming;
mod apart;
mod edge;
pub mod examples;
mod farthest;
mod field;
mod in_order;
pub mod laws;
mod near;
mod near_aiming;
mod near_pass;
mod near_tree;
mod passed;
mod passing;
mod position;
mod reaching;

pub use aiming::aim_all;
pub use apart::stand_apart;
pub use in_order::begin_in_order;
pub use near::stand_near;
pub use near_pass::stand_near_at;
pub use near_tree::{NearPair, NearPhrase, NearTree, NearWindow};
