//! Rows of places that are kept from one word to the next.

ghost use Rattle.std.specs.Prelude.{◌≡◌, ◌≤◌, ◌<◌, ◌-◌, ◌^◌, [], length, OnErr, OnOk};
ghost use Rattle.match_options.specs.PlaceRows.{place_count};

use ft_base::Memory;
use std::alloc::Global;

/// The places of a word, one before each character and one at its end, in which patterns are compared with it. A row serves for one word
/// after the other, and takes memory only where a word has more places than each before it.
#[derive(Drop)]
pub struct PlaceRow {
    alloc: Global,
    pub(crate) places: Vec<bool>,
}

impl PlaceRow {
    /// A row without places.
    pub fn new(alloc: Global) -> PlaceRow
        ensures { place_count result ≡ 0 }
    {
        PlaceRow {
            alloc,
            places: Vec::new(alloc),
        }
    }

    /// Makes room for a word of so many characters. Where memory runs out, the row stays as it was.
    pub(crate) fn make_room(&mut self, characters: usize) -> Result<(), Memory>
        requires { characters < 2 ^ 64 - 1 }
        ensures room { OnOk result (characters < place_count self.new) }
        ensures grown { OnOk result (place_count self.old ≤ place_count self.new) }
        ensures kept { OnErr result (place_count self.new ≡ place_count self.old) }
        ensures short { OnErr result (place_count self.old ≤ characters) }
    {
        if characters < self.places.len() {
            return Ok(());
        }
        self.places = vec![in self.alloc; false; characters + 1]?;
        Ok(())
    }
}
