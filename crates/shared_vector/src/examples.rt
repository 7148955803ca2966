//! The definitions on small lists, by computation.
ghost use Rattle.std.specs.Prelude.{◌≡◌};
ghost use Rattle.shared_vector.specs.Full.{block_length};

/// A block has 64 items where it is full.
pub fn full_blocks()
    ensures { block_length ≡ 64 }
{}
