ghost use Rattle.std.specs.Prelude.{◌≡◌, ◌<◌, ◌∷◌, ◌++◌, ◌↔◌, [], length, slice_index, IsTrue, OnErr, OnOk};
ghost use Rattle.std.specs.Option.{ForSome};
ghost use Rattle.ft_base.specs.Places.{is_ascending, last_place};

use crate::Memory;
use std::alloc::Global;
use std::marker::Model;

/// An ascending list of places, counted from 1.
#[derive(Drop)]
pub struct Places {
    places: Vec<u32>,
}

impl Model for Places {
    ghost use Rattle.std.specs.Prelude.{List, ℕ, IsTrue};
    ghost use Rattle.ft_base.specs.Places.{is_ascending};

    ghost Value = { List ℕ };

    ghost view = { λ list. list.places.items };

    ghost invariant = { λ list. IsTrue (is_ascending list.places.items) };
}

impl Places {
    /// The empty list.
    pub fn new(alloc: Global) -> Places
        ensures { result ≡ [] }
    {
        Places {
            places: Vec::new(alloc),
        }
    }

    /// Puts a place after the last one. Where memory runs out, the list stays as it was.
    pub fn push(&mut self, place: u32) -> Result<(), Memory>
        requires { ForSome (last_place self.old) (λ last. last < place) }
        ensures ok { OnOk result (self.new ≡ self.old ++ place ∷ []) }
        ensures err { OnErr result (self.new ≡ self.old) }
    {
        self.places.push(place)?;
        Ok(())
    }

    /// How many places there are.
    pub fn len(&self) -> usize
        ensures { result ≡ length self.now }
    {
        self.places.len()
    }

    /// Whether there is no place.
    pub fn is_empty(&self) -> bool
        ensures { IsTrue result ↔ (self.now ≡ []) }
    {
        self.places.is_empty()
    }

    /// The place of that number, counted from 0.
    pub fn get(&self, number: usize) -> u32
        requires { number < length self.now }
        ensures { result ≡ slice_index self.now number }
    {
        self.places[number]
    }

    /// The places, in order.
    pub fn as_slice(&self) -> &[u32]
        ensures value { result.now ≡ self.now }
        ensures ascending { IsTrue (is_ascending self.now) }
    {
        self.places.as_slice()
    }
}

/// Where the sentences and the paragraphs of a document start: the places of their first tokens.
#[derive(Drop)]
pub struct Breaks {
    pub sentences: Places,
    pub paragraphs: Places,
}
