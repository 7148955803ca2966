//! Words that stand near one another, in one sentence or paragraph, or in order, found by going through their hits.
//!
//! Each word has some sources of hits, as one for each form in which it stands in a text. `stand_close` says whether all
//! words have a hit among so many places that follow one another, `stand_together` whether they have one in the same unit
//! of the text, `stand_in_order` whether their hits can be chosen so that none stands before one that was chosen for an
//! earlier word. None of them tries choices: the sources go forward only, and no memory is taken.
//!
//! `laws` says what this has to do with `ftand` under `window`, `same sentence`, `same paragraph` and `ordered`.
#![tactic(auto)]

mod close;
pub mod examples;
mod first_hits;
mod in_order;
pub mod laws;
mod together;
mod units;

pub use close::stand_close;
pub use in_order::stand_in_order;
pub use together::stand_together;
pub use units::Units;
