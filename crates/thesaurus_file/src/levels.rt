ghost use Rattle.std.specs.Prelude.{◌≡◌, ◌<◌, ◌≤◌, ℕ, false};
ghost use Rattle.thesaurus_file.specs.Levels.{in_range, is_up_to};

/// A range of levels: from `from` to `to`, both included, or without an end.
#[derive(Clone, Copy, PartialEq, Eq)]
pub struct Levels {
    pub from: u32,
    pub to: Option<u32>,
}

impl Levels {
    /// Whether the level is in the range.
    pub fn hold(&self, level: usize) -> bool
        ensures { result ≡ in_range self.now level }
    {
        if level < self.from as usize {
            return false;
        }
        match self.to {
            Some(to) => level <= to as usize,
            None => true,
        }
    }
    /// The last of the levels up to `count` that isn't above the range's end.
    pub(crate) fn last_within(&self, count: usize) -> usize
        ensures within { result ≤ count }
        ensures last { (level : ℕ) → result < level → level ≤ count → is_up_to self.now.to level ≡ false }
    {
        match self.to {
            Some(to) => count.min(to as usize),
            None => count,
        }
    }
}
