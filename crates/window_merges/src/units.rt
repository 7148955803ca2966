ghost use Rattle.std.specs.Prelude.{◌≡◌, ◌≤◌, ◌<◌, ◌-◌, ◌^◌, ℕ};

/// The places of a text in units that follow one another, as its sentences or its paragraphs.
pub trait Units {
    /// The number of the unit round a place.
    ghost number: { Self → ℕ → ℕ };

    /// The number of the unit round that place.
    fn number_of(&self, place: u32) -> u32
        requires { place < 2 ^ 32 - 1 }
        ensures { result ≡ number self.now place };

    /// Units have their numbers in the order in which they follow one another.
    ghost rises: { (units : Self) (first second : ℕ) → first ≤ second → number units first ≤ number units second };
}
