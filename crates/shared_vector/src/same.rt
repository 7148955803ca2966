ghost use Rattle.std.specs.Prelude.{◌≡◌, IsTrue};

/// What items can do of which equal ones need not be kept twice.
pub trait Same: Drop {
    /// Whether the other item is known to be the same.
    fn is_same(&self, other: &Self) -> bool
        ensures { IsTrue result → self.now ≡ other.now };
}
