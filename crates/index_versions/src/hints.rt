//! Where to look first for the id of a word.

use ft_base::Memory;
use std::alloc::Global;

/// How many slots are looked at for one word.
const TRIES: usize = 8;

/// How many slots a table begins with, less one.
const FIRST_MASK: u32 = 1023;

/// The id in a slot that was never filled.
const NONE: u32 = u32::MAX;

/// What one slot has: the hash of a word, and the id that the word had.
#[derive(Clone, Copy)]
struct Slot {
    hash: u32,
    id: u32,
}

const EMPTY: Slot = Slot { hash: 0, id: NONE };

/// The ids that words had, by the words' hashes. A version that puts words in asks here first, and searches its
/// dictionary only for words whose hint doesn't hold: it looks whether the id names the word and is in use. So hints may
/// come from any version, also from a later one; they decide how long a call takes, and nothing else.
#[derive(Drop)]
pub struct WordHints {
    alloc: Global,
    // A run of slots for each number up to the mask, which is one less than a power of two; runs overlap.
    slots: Vec<Slot>,
    mask: u32,
    filled: usize,
}

impl WordHints {
    /// No hints.
    pub fn new(alloc: Global) -> WordHints {
        WordHints {
            alloc,
            slots: Vec::new(alloc),
            mask: 0,
            filled: 0,
        }
    }

    /// The id that a word with this hash had.
    pub(crate) fn find(&self, hash: u32) -> Option<u32> {
        let first = (hash & self.mask) as usize;
        for at in first..first + TRIES {
            let slot = self.slots.get(at)?;
            if slot.id == NONE {
                return None;
            }
            if slot.hash == hash {
                return Some(slot.id);
            }
        }
        None
    }

    /// Notes the id of a word with this hash.
    pub(crate) fn note(&mut self, hash: u32, id: u32) -> Result<(), Memory> {
        if self.slots.len() / 2 <= self.filled {
            self.grow()?;
        }
        self.put(Slot { hash, id });
        Ok(())
    }

    /// Fills the slot with this hash, or else the first empty one of its run, or else the last.
    fn put(&mut self, filling: Slot) {
        let first = (filling.hash & self.mask) as usize;
        let last = first + TRIES - 1;
        for at in first..last {
            let Some(slot) = self.slots.get(at) else {
                return;
            };
            if slot.id == NONE {
                self.filled = self.filled.saturating_add(1);
                self.fill(at, filling);
                return;
            }
            if slot.hash == filling.hash {
                self.fill(at, filling);
                return;
            }
        }
        self.fill(last, filling);
    }

    /// Fills the slot of that number.
    fn fill(&mut self, at: usize, filling: Slot) {
        if let Some(slot) = self.slots.get_mut(at) {
            *slot = filling;
        }
    }

    /// Makes the table twice as long.
    fn grow(&mut self) -> Result<(), Memory> {
        let mask = self
            .mask
            .saturating_mul(2)
            .saturating_add(1)
            .max(FIRST_MASK);
        let mut slots = Vec::new(self.alloc);
        slots.resize(mask as usize + TRIES, EMPTY)?;
        let before = std::mem::replace(&mut self.slots, slots);
        self.mask = mask;
        self.filled = 0;
        for slot in &before {
            if slot.id != NONE {
                self.put(*slot);
            }
        }
        Ok(())
    }
}

/// A hash of the word's bytes.
pub(crate) fn hash_of(word: &str) -> u32 {
    let mut hash = 2166136261u32;
    for byte in word.as_bytes() {
        hash = (hash ^ *byte as u32).wrapping_mul(16777619);
    }
    hash
}
