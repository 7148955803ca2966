//! Windows that count words.

use window_merges::Units;

/// Each word as a unit of its own, which has its place as its number.
#[derive(Clone, Copy)]
pub struct EachWord;

impl Units for EachWord {
    ghost number = { λ units place. place };

    fn number_of(&self, place: u32) -> u32 {
        place
    }

    ghost rises = { λ units first second h. h };
}
